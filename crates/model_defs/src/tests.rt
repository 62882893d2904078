//! The shapes of a small job, with enough memory.
use crate::{
    Job, ListOf, MapForm, MapSpec, MatrixSpec, Origin, Shape, Sort, Step, Text, VectorSpec, shapes,
};
use std::alloc::{AllocError, Global};
use std::test::Fail;

/// A job of two maps, a vector and a matrix that is transposed.
fn small_job(alloc: Global) -> Result<Job, AllocError> {
    let mut maps = Vec::new(alloc);
    maps.push(MapSpec {
        name: Text::new(alloc, "u")?,
        size: 3,
        form: MapForm::Uniform,
    })?;
    maps.push(MapSpec {
        name: Text::new(alloc, "c")?,
        size: 3,
        form: MapForm::Cyclic,
    })?;
    let mut vectors = Vec::new(alloc);
    vectors.push(VectorSpec {
        name: Text::new(alloc, "x")?,
        map: 1,
        columns: 2,
        from: Origin::Fill(7),
    })?;
    let mut matrices = Vec::new(alloc);
    matrices.push(MatrixSpec {
        name: Text::new(alloc, "A")?,
        split: false,
        rows: 0,
        domain: 1,
        file: Text::new(alloc, "a.mtx")?,
    })?;
    let mut steps = Vec::new(alloc);
    steps.push(Step::Print { value: 0 })?;
    steps.push(Step::Transpose {
        name: Text::new(alloc, "T")?,
        matrix: 1,
    })?;
    Ok(Job {
        ranks: 2,
        maps: ListOf::new(maps),
        vectors: ListOf::new(vectors),
        parts: ListOf::new(Vec::new(alloc)),
        matrices: ListOf::new(matrices),
        steps: ListOf::new(steps),
    })
}

/// The sort, the row map and the structure of a shape.
fn seen(shapes: &[Shape], at: usize) -> Option<(Sort, u32, usize)> {
    match shapes.get(at) {
        Some(shape) => Some((shape.sort, shape.rows, shape.structure)),
        None => None,
    }
}

#[test]
fn a_small_job_has_shapes(rt: HostRuntime) -> Result<(), Fail> {
    let job = small_job(rt.alloc())?;
    let all = shapes(rt.alloc(), &job)?;
    assert_eq!(&rt; all.len(), 3);
    assert_eq!(&rt; seen(all.as_slice(), 0), Some((Sort::Vector, 1, 0)));
    assert_eq!(&rt; seen(all.as_slice(), 1), Some((Sort::Matrix, 0, 1)));
    assert_eq!(&rt; seen(all.as_slice(), 2), Some((Sort::Matrix, 1, 2)));
    Ok(())
}
