//! What a rank queues when it works.
ghost use Rattle.std.specs.Prelude.{◌≡◌, IfOk, OnOk, map};
ghost use Rattle.peers.specs.Peers.{PeerState, after_work, with_none_queued};
ghost use Rattle.rank_example.specs.Posts.{letter_of};

use outside::Name;
use peers::Peer;
use std::alloc::{AllocError, Global};

/// A letter that was queued: its name and its bytes.
#[derive(Debug, Drop)]
pub struct Post {
    pub name: Name,
    pub bytes: Vec<u8>,
}

/// Lets a rank work that stands at `state`, and takes the letters that it has queued then, in order. `Err` means that memory
/// ran out.
pub fn posts_of<N: Peer>(alloc: Global, peer: &mut N) -> Result<Vec<Post>, AllocError>
    ghost state: { PeerState }
    requires stands { N.stands peer.old state }
    ensures peer { OnOk result (N.stands peer.new (with_none_queued (after_work state))) }
    ensures posts { IfOk result (λ posts. map letter_of posts.items ≡ (after_work state).queued) }
{
    peer.work()?;
    taken_posts(alloc, peer)
}

/// Takes the letters that a rank has queued, in order.
fn taken_posts<N: Peer>(alloc: Global, peer: &mut N) -> Result<Vec<Post>, AllocError>
    ghost state: { PeerState }
    requires stands { N.stands peer.old state }
    ensures peer { OnOk result (N.stands peer.new (with_none_queued state)) }
    ensures posts { IfOk result (λ posts. map letter_of posts.items ≡ state.queued) }
{
    let mut posts = Vec::new(alloc);
    while let Some(name) = peer.first_post() {
        let bytes = peer.post_bytes().to_vec(alloc)?;
        posts.push(Post { name, bytes })?;
        peer.sent();
    }
    Ok(posts)
}
