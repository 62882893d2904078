//! The shapes of the values of a job.
ghost use Rattle.std.specs.Prelude.{◌≡◌, OnOk, IfOk, map, filter, length};
ghost use Rattle.model_defs.specs.Makers.{GivenVector, GivenParts, GivenMatrix, Made, gives_value, value_count};
ghost use Rattle.model_defs.specs.Shapes.{moved_shape, shape, shape_by};
ghost use Rattle.model_defs.specs.ShapeLists.{at_list, shapes_from};

use crate::{Job, MatrixSpec, PartsSpec, Shape, Sort, Step, VectorSpec};
use std::alloc::{AllocError, Global};

/// The shape of the value of this number. Where there is none, that of a vector without columns.
pub(crate) fn shape_at(shapes: &[Shape], value: usize) -> Shape
    ensures { result ≡ at_list shapes.now value }
{
    match shapes.get(value) {
        Some(shape) => *shape,
        None => Shape {
            sort: Sort::Vector,
            rows: 0,
            domain: 0,
            columns: 0,
            structure: 0,
        },
    }
}

/// The shape of value `k`, which is moved to this map.
fn moved(k: usize, shape: Shape, map: u32) -> Shape
    ensures { result ≡ moved_shape k shape map }
{
    let structure = if shape.rows == map {
        shape.structure
    } else {
        k
    };
    Shape {
        sort: shape.sort,
        rows: map,
        domain: shape.domain,
        columns: shape.columns,
        structure,
    }
}

/// The shape of value `k`, which this statement makes of values of these shapes.
fn step_shape(k: usize, shapes: &[Shape], step: &Step) -> Shape
    ensures { result ≡ shape_by k (at_list shapes.now) (Made step.now) }
{
    match step {
        Step::Move { from, map, .. } => moved(k, shape_at(shapes, *from as usize), *map),
        Step::Import { onto, .. } => shape_at(shapes, *onto as usize),
        Step::Export { onto, .. } => shape_at(shapes, *onto as usize),
        Step::Spread { from, map, .. } => Shape {
            sort: Sort::Parts,
            rows: *map,
            ..shape_at(shapes, *from as usize)
        },
        Step::Update { x, .. } => shape_at(shapes, *x as usize),
        Step::Scale { value, .. } => shape_at(shapes, *value as usize),
        Step::Apply {
            matrix,
            x,
            transposed,
            ..
        } => {
            let a = shape_at(shapes, *matrix as usize);
            Shape {
                rows: if *transposed { a.domain } else { a.rows },
                ..shape_at(shapes, *x as usize)
            }
        }
        Step::Transpose { matrix, .. } => {
            let a = shape_at(shapes, *matrix as usize);
            Shape {
                rows: a.domain,
                domain: a.rows,
                structure: k,
                ..a
            }
        }
        Step::Multiply { a, b, .. } => Shape {
            domain: shape_at(shapes, *b as usize).domain,
            structure: k,
            ..shape_at(shapes, *a as usize)
        },
        Step::Add { a, .. } => Shape {
            structure: k,
            ..shape_at(shapes, *a as usize)
        },
        Step::Assemble { from, .. } => Shape {
            sort: Sort::Matrix,
            structure: k,
            ..shape_at(shapes, *from as usize)
        },
        Step::Print { value } => shape_at(shapes, *value as usize),
    }
}

/// Puts the shapes of these vectors at the end.
fn add_vectors(shapes: &mut Vec<Shape>, specs: &[VectorSpec]) -> Result<(), AllocError>
    ensures { OnOk result (shapes.new.items ≡ shapes_from shapes.old.items (map GivenVector specs.now)) }
{
    for spec in specs {
        let structure = shapes.len();
        shapes.push(Shape {
            sort: Sort::Vector,
            rows: spec.map,
            domain: spec.map,
            columns: spec.columns,
            structure,
        })?;
    }
    Ok(())
}

/// Puts the shapes of these parts at the end.
fn add_parts(shapes: &mut Vec<Shape>, specs: &[PartsSpec]) -> Result<(), AllocError>
    ensures { OnOk result (shapes.new.items ≡ shapes_from shapes.old.items (map GivenParts specs.now)) }
{
    for spec in specs {
        let structure = shapes.len();
        shapes.push(Shape {
            sort: Sort::Parts,
            rows: spec.map,
            domain: spec.map,
            columns: spec.columns,
            structure,
        })?;
    }
    Ok(())
}

/// Puts the shapes of these matrices at the end.
fn add_matrices(shapes: &mut Vec<Shape>, specs: &[MatrixSpec]) -> Result<(), AllocError>
    ensures { OnOk result (shapes.new.items ≡ shapes_from shapes.old.items (map GivenMatrix specs.now)) }
{
    for spec in specs {
        let structure = shapes.len();
        let sort = if spec.split {
            Sort::Split
        } else {
            Sort::Matrix
        };
        shapes.push(Shape {
            sort,
            rows: spec.rows,
            domain: spec.domain,
            columns: 0,
            structure,
        })?;
    }
    Ok(())
}

/// Whether a statement gives a value.
pub(crate) fn gives(step: &Step) -> bool
    ensures { result ≡ gives_value step.now }
{
    !matches!(step, Step::Print { .. })
}

/// Puts the shapes of the values of these statements at the end.
fn add_steps(shapes: &mut Vec<Shape>, steps: &[Step]) -> Result<(), AllocError>
    ensures { OnOk result (shapes.new.items ≡ shapes_from shapes.old.items (map Made (filter gives_value steps.now))) }
{
    for step in steps {
        if gives(step) {
            let shape = step_shape(shapes.len(), shapes.as_slice(), step);
            shapes.push(shape)?;
        }
    }
    Ok(())
}

/// The shapes of the values of a job, in order. `Err` means that memory ran out.
pub fn shapes(alloc: Global, job: &Job) -> Result<Vec<Shape>, AllocError>
    ensures shapes { IfOk result (λ shapes. at_list shapes.items ≡ shape job.now) }
    ensures count { IfOk result (λ shapes. length shapes.items ≡ value_count job.now) }
{
    let mut shapes = Vec::new(alloc);
    add_vectors(&mut shapes, job.vectors.as_slice())?;
    add_parts(&mut shapes, job.parts.as_slice())?;
    add_matrices(&mut shapes, job.matrices.as_slice())?;
    add_steps(&mut shapes, job.steps.as_slice())?;
    Ok(shapes)
}
