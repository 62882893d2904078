//! Letters that are kept: those that came early, and those that are to be sent.
ghost use Rattle.std.specs.Prelude.{◌≡◌, not};
ghost use Rattle.std.specs.List.{filter, list_any};
ghost use Rattle.outside.specs.Letters.{same_name};
ghost use Rattle.peers.specs.Protocols.{stands_in};
ghost use Rattle.rank_phases.specs.Queues.{is_kept};

use outside::Name;

/// A letter: its name and its bytes.
#[derive(Drop)]
pub struct Letter {
    pub name: Name,
    pub bytes: Vec<u8>,
}

/// Whether two names are one.
fn is_same(a: Name, b: Name) -> bool
    ensures { result ≡ same_name a b }
{
    a.phase == b.phase && a.from == b.from && a.to == b.to
}

/// Whether the name is one of these.
pub(crate) fn has(names: &[Name], name: Name) -> bool
    ensures { result ≡ stands_in names.now name }
{
    names.iter().any(|n| is_same(name, *n))
}

/// Whether one of the letters has this name.
pub(crate) fn has_letter(letters: &[Letter], name: Name) -> bool
    ensures { result ≡ is_kept letters.now name }
{
    letters.iter().any(|letter| is_same(name, letter.name))
}

/// Takes a name out.
pub(crate) fn take_out(names: &mut Vec<Name>, name: Name)
    ensures { names.new.items ≡ filter (λ n. not (same_name n name)) names.old.items }
{
    names.retain(|n| !is_same(*n, name));
}

/// Takes out the names of these letters.
pub(crate) fn take_out_all(names: &mut Vec<Name>, letters: &[Letter])
    ensures { names.new.items ≡ filter (λ n. not (is_kept letters.now n)) names.old.items }
{
    names.retain(|n| !has_letter(letters, *n));
}
