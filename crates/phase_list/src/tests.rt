//! The phases of small jobs, which are worked out by hand.
use crate::lines::lines_of;
use crate::{phases, transfers};
use combine_modes::Mode;
use model_defs::{
    Job, ListOf, MapForm, MapSpec, MatrixSpec, Origin, PartsSpec, Plan, Step, Text, Transfer,
    VectorSpec, Way, shapes,
};
use std::alloc::{AllocError, Global};
use std::test::Fail;

/// A map of three indices.
fn map_of(alloc: Global, form: MapForm) -> Result<MapSpec, AllocError> {
    Ok(MapSpec {
        name: Text::new(alloc, "m")?,
        size: 3,
        form,
    })
}

/// A job of two ranks, of a map of this form and a cyclic one, of the vector x and the matrix A on the first map.
fn job_of(alloc: Global, form: MapForm, split: bool, steps: Vec<Step>) -> Result<Job, AllocError> {
    let mut maps = Vec::new(alloc);
    maps.push(map_of(alloc, form)?)?;
    maps.push(map_of(alloc, MapForm::Cyclic)?)?;
    let mut vectors = Vec::new(alloc);
    vectors.push(VectorSpec {
        name: Text::new(alloc, "x")?,
        map: 0,
        columns: 1,
        from: Origin::Fill(1),
    })?;
    let mut matrices = Vec::new(alloc);
    matrices.push(MatrixSpec {
        name: Text::new(alloc, "A")?,
        split,
        rows: 0,
        domain: 0,
        file: Text::new(alloc, "a.mtx")?,
    })?;
    Ok(Job {
        ranks: 2,
        maps: ListOf::new(maps),
        vectors: ListOf::new(vectors),
        parts: ListOf::new(Vec::new(alloc)),
        matrices: ListOf::new(matrices),
        steps: ListOf::new(steps),
    })
}

/// The value of this number, moved to a map.
fn moved(alloc: Global, from: u32, map: u32) -> Result<Step, AllocError> {
    Ok(Step::Move {
        name: Text::new(alloc, "M")?,
        from,
        map,
    })
}

/// The matrix applied to the vector.
fn applied(alloc: Global) -> Result<Step, AllocError> {
    Ok(Step::Apply {
        name: Text::new(alloc, "y")?,
        matrix: 1,
        x: 0,
        y: None,
        alpha: 1,
        beta: 0,
        transposed: false,
    })
}

/// The phases of a job in words: each with the kind of its letters and the number of its value.
fn in_words(alloc: Global, job: &Job) -> Result<String, AllocError> {
    let mut words = String::new(alloc);
    for phase in phases(alloc, job)?.as_slice() {
        words.push_str(phase.kind.name())?;
        words.push_str(format!(in alloc; " {};", phase.value)?.as_str())?;
    }
    Ok(words)
}

/// A matrix that is assembled on a uniform map, moved to the cyclic map, and added to itself from there.
#[test]
fn sum_of_two(rt: HostRuntime) -> Result<(), Fail> {
    let alloc = rt.alloc();
    let mut steps = Vec::new(alloc);
    steps.push(moved(alloc, 1, 1)?)?;
    steps.push(Step::Add {
        name: Text::new(alloc, "D")?,
        a: 1,
        b: 2,
        alpha: 1,
        beta: 1,
    })?;
    let job = job_of(alloc, MapForm::Uniform, false, steps)?;
    let words =
        "OFFER 1;ROWS 1;WANT 1;WANT 2;ROWS 2;WANT 2;REG 3;ASK 3;TELL 3;WANT 3;ROWS 3;WANT 3;";
    assert_eq!(rt; in_words(alloc, &job)?.as_str(), words);
    Ok(())
}

/// A cyclic map is registered once, and both plans of the matrix ask for owners.
#[test]
fn directory(rt: HostRuntime) -> Result<(), Fail> {
    let alloc = rt.alloc();
    let mut steps = Vec::new(alloc);
    steps.push(applied(alloc)?)?;
    let job = job_of(alloc, MapForm::Cyclic, false, steps)?;
    let words = "REG 1;ASK 1;TELL 1;OFFER 1;ROWS 1;ASK 1;TELL 1;WANT 1;DATA 2;";
    assert_eq!(rt; in_words(alloc, &job)?.as_str(), words);
    Ok(())
}

/// A split matrix has both plans, and an apply of it sends numbers twice. A second apply needs no plan.
#[test]
fn split(rt: HostRuntime) -> Result<(), Fail> {
    let alloc = rt.alloc();
    let mut steps = Vec::new(alloc);
    steps.push(applied(alloc)?)?;
    steps.push(Step::Print { value: 2 })?;
    steps.push(applied(alloc)?)?;
    let job = job_of(alloc, MapForm::Uniform, true, steps)?;
    assert_eq!(rt;
        in_words(alloc, &job)?.as_str(),
        "WANT 1;OFFER 1;DATA 2;DATA 2;DATA 3;DATA 3;"
    );
    let shapes = shapes(alloc, &job)?;
    let list = transfers(alloc, &job, shapes.as_slice(), 3)?;
    let wanted = [
        Transfer {
            plan: Plan::ColumnPlan { value: 1 },
            way: Way::FromOwners,
        },
        Transfer {
            plan: Plan::RowPlan { value: 1 },
            way: Way::ToOwners,
        },
    ];
    assert!(rt; list.as_slice() == wanted.as_slice());
    Ok(())
}

/// Two moves by one plan, one to the map where the vector is, and a scaled vector.
#[test]
fn moves(rt: HostRuntime) -> Result<(), Fail> {
    let alloc = rt.alloc();
    let mut steps = Vec::new(alloc);
    steps.push(moved(alloc, 0, 1)?)?;
    steps.push(moved(alloc, 0, 0)?)?;
    steps.push(Step::Scale {
        name: Text::new(alloc, "s")?,
        value: 0,
        alpha: 2,
    })?;
    steps.push(moved(alloc, 4, 1)?)?;
    let job = job_of(alloc, MapForm::Uniform, true, steps)?;
    assert_eq!(rt;
        in_words(alloc, &job)?.as_str(),
        "WANT 1;OFFER 1;WANT 2;DATA 2;DATA 5;"
    );
    Ok(())
}

/// Parts that are exported to a vector on a map with a directory.
#[test]
fn exported(rt: HostRuntime) -> Result<(), Fail> {
    let alloc = rt.alloc();
    let mut steps = Vec::new(alloc);
    steps.push(Step::Export {
        name: Text::new(alloc, "e")?,
        from: 1,
        onto: 0,
        mode: Mode::Replace,
    })?;
    let mut parts = Vec::new(alloc);
    parts.push(PartsSpec {
        name: Text::new(alloc, "p")?,
        map: 1,
        columns: 1,
        from: Origin::Fill(1),
    })?;
    let mut job = job_of(
        alloc,
        MapForm::Lists(ListOf::new(Vec::new(alloc))),
        true,
        steps,
    )?;
    job.parts = ListOf::new(parts);
    job.matrices = ListOf::new(Vec::new(alloc));
    assert_eq!(rt;
        in_words(alloc, &job)?.as_str(),
        "REG 2;ASK 2;TELL 2;OFFER 2;DATA 2;"
    );
    let phases = phases(alloc, &job)?;
    let listed = phases.as_slice();
    if listed.len() < 10 {
        let lines = lines_of(alloc, &job, listed)?;
        let mut words = String::new(alloc);
        for line in lines.as_slice() {
            words.push_str(format!(in alloc;
                "{} {} {};",
                line.phase,
                line.kind.name(),
                line.name.as_str()
            )?
            .as_str())?;
        }
        assert_eq!(rt;
            words.as_str(),
            "0 REG e;1 ASK e;2 TELL e;3 OFFER e;4 DATA e;"
        );
    }
    Ok(())
}
