//! The job of the example, its file, and its first rank.
ghost use Rattle.std.specs.Prelude.{◌≡◌, [], ◌∷◌, map, IfOk};
ghost use Rattle.mm_text.specs.Reading.{file_of};
ghost use Rattle.peers.specs.Peers.{fresh};
ghost use Rattle.scalar_laws.specs.Weighed.{weighed_conversions, weighed_semiring};
ghost use Rattle.model_defs.specs.declared.job.MapSpec.{MapSpec};
ghost use Rattle.rank_core.specs.Ranks.{IsRank};
ghost use Rattle.rank_example.specs.SmallJob.{lines, maps, small_files, small_job, small_protocol, steps, vectors};

use model_defs::{
    FileData, Job, Line, ListOf, MapForm, MapSpec, Mirror, Origin, Step, Text, VectorSpec,
};
use rank_core::Rank;
use rank_share::share_of;
use scalar_laws::Weighed;
use std::alloc::{AllocError, Global};
use std::rc::Rc;

/// A map of three indices.
fn map_of_three(alloc: Global, name: &str, form: MapForm) -> Result<MapSpec, AllocError>
    ensures map { IfOk result (λ m. m ≡ record { name = name.now; size = 3; form = form }) }
{
    Ok(MapSpec {
        name: Text::new(alloc, name)?,
        size: 3,
        form,
    })
}

/// The uniform map and the cyclic one.
fn maps(alloc: Global) -> Result<ListOf<MapSpec>, AllocError>
    ensures maps { IfOk result (λ list. list ≡ maps) }
{
    let mut list = Vec::new(alloc);
    list.push(map_of_three(alloc, "s", MapForm::Uniform)?)?;
    list.push(map_of_three(alloc, "t", MapForm::Cyclic)?)?;
    Ok(ListOf::new(list))
}

/// The vector x of its file, on the first map.
fn vectors(alloc: Global) -> Result<ListOf<VectorSpec>, AllocError>
    ensures vectors { IfOk result (λ list. list ≡ vectors) }
{
    let mut names = Vec::new(alloc);
    names.push(Text::new(alloc, "x.mtx")?)?;
    let mut list = Vec::new(alloc);
    list.push(VectorSpec {
        name: Text::new(alloc, "x")?,
        map: 0,
        columns: 1,
        from: Origin::Files(ListOf::new(names)),
    })?;
    Ok(ListOf::new(list))
}

/// The move of x to the second map, and a print of what came.
fn steps(alloc: Global) -> Result<ListOf<Step>, AllocError>
    ensures steps { IfOk result (λ list. list ≡ steps) }
{
    let mut list = Vec::new(alloc);
    list.push(Step::Move {
        name: Text::new(alloc, "y")?,
        from: 0,
        map: 1,
    })?;
    list.push(Step::Print { value: 1 })?;
    Ok(ListOf::new(list))
}

/// The job.
fn small_job(alloc: Global) -> Result<Job, AllocError>
    ensures job { IfOk result (λ job. job ≡ small_job) }
{
    Ok(Job {
        ranks: 2,
        maps: maps(alloc)?,
        vectors: vectors(alloc)?,
        parts: ListOf::new(Vec::new(alloc)),
        matrices: ListOf::new(Vec::new(alloc)),
        steps: steps(alloc)?,
    })
}

/// The lines of its file.
fn lines(alloc: Global) -> Result<Vec<Line>, AllocError>
    ensures lines { IfOk result (λ list. list.items ≡ lines) }
{
    let mut list = Vec::new(alloc);
    list.push(Line {
        row: 0,
        col: 0,
        value: 1,
    })?;
    list.push(Line {
        row: 1,
        col: 0,
        value: 10,
    })?;
    list.push(Line {
        row: 2,
        col: 0,
        value: 100,
    })?;
    Ok(list)
}

/// Its one file, that of x.
fn small_files(alloc: Global) -> Result<Vec<FileData>, AllocError>
    ensures files { IfOk result (λ files. map file_of files.items ≡ small_files) }
{
    let file = FileData {
        rows: 3,
        cols: 1,
        mirror: Mirror::Plain,
        lines: lines(alloc)?,
    };
    let mut files = Vec::new(alloc);
    files.push(file)?;
    Ok(files)
}

/// The first rank of the job, which was given nothing yet. No other rank is made. `Err` means that memory ran out.
pub fn first_rank(alloc: Global) -> Result<Rank<Weighed>, AllocError>
    ensures fresh { IfOk result (λ rank. IsRank weighed_semiring weighed_conversions rank (fresh small_protocol 0)) }
{
    let job = Rc::new(alloc, small_job(alloc)?)?;
    let files = small_files(alloc)?;
    let share = share_of(alloc, &job, &files, 0)?;
    Ok(Rank::start(alloc, 0, &job, share)?)
}
