//! The job and the files of two sizes, line by line.
use crate::{generated_files, generated_job};
use mm_text::FileData;
use model_defs::{Job, MapForm, MapSpec, MatrixSpec, Origin, Step, VectorSpec};
use std::alloc::{AllocError, Global};
use std::process::Abort;
use std::test::Fail;

fn map_line(alloc: Global, map: &MapSpec) -> Result<String, AllocError> {
    let form = match &map.form {
        MapForm::Uniform => "uniform",
        MapForm::Cyclic => "cyclic",
        _ => "?",
    };
    format!(in alloc; "{} {} {form}\n", map.name.as_str(), map.size)
}

fn vector_line(alloc: Global, vector: &VectorSpec) -> Result<String, AllocError> {
    let name = vector.name.as_str();
    let mut line = format!(in alloc; "{name} on {} has {}", vector.map, vector.columns)?;
    if let Origin::Files(files) = &vector.from {
        for file in files.as_slice() {
            line.push_str(" of ")?;
            line.push_str(file.as_str())?;
        }
    }
    line.push_str("\n")?;
    Ok(line)
}

fn matrix_line(alloc: Global, matrix: &MatrixSpec) -> Result<String, AllocError> {
    let name = matrix.name.as_str();
    let file = matrix.file.as_str();
    let split = matrix.split;
    format!(in alloc;
        "{name} on {} and {} of {file}, split {split}\n",
        matrix.rows, matrix.domain
    )
}

fn step_line(alloc: Global, step: &Step) -> Result<String, AllocError> {
    match step {
        Step::Move { name, from, map } => {
            format!(in alloc; "{} = move {from} to {map}\n", name.as_str())
        }
        Step::Apply {
            name,
            matrix,
            x,
            y,
            alpha,
            beta,
            transposed,
        } => {
            let name = name.as_str();
            format!(in alloc;
                "{name} = {alpha} {matrix} {x} + {beta} {y:?}, transposed {transposed}\n"
            )
        }
        Step::Multiply { name, a, b } => {
            format!(in alloc; "{} = multiply {a} {b}\n", name.as_str())
        }
        Step::Print { value } => format!(in alloc; "print {value}\n"),
        _ => String::from_str(alloc, "?\n"),
    }
}

/// The lines of the maps and of the given values.
fn given_lines(alloc: Global, job: &Job) -> Result<String, AllocError> {
    let mut text = format!(in alloc;
        "ranks {}, parts {}\n",
        job.ranks,
        job.parts.as_slice().len()
    )?;
    for map in job.maps.as_slice() {
        text.push_str(map_line(alloc, map)?.as_str())?;
    }
    for vector in job.vectors.as_slice() {
        text.push_str(vector_line(alloc, vector)?.as_str())?;
    }
    for matrix in job.matrices.as_slice() {
        text.push_str(matrix_line(alloc, matrix)?.as_str())?;
    }
    Ok(text)
}

fn step_lines(alloc: Global, job: &Job) -> Result<String, AllocError> {
    let mut text = String::new(alloc);
    for step in job.steps.as_slice() {
        text.push_str(step_line(alloc, step)?.as_str())?;
    }
    Ok(text)
}

/// The sizes of a file, and its entries.
fn file_lines(alloc: Global, file: &FileData) -> Result<String, AllocError> {
    let mut text = format!(in alloc; "{} {} {:?}\n", file.rows, file.cols, file.mirror)?;
    for line in file.lines.as_slice() {
        text.push_str(format!(in alloc; "{} {} {}\n", line.row, line.col, line.value)?.as_str())?;
    }
    Ok(text)
}

const STATEMENTS: &str = "\
    x = move 0 to 0\n\
    y = 1 1 2 + 0 None, transposed false\n\
    s = multiply 1 1\n\
    z = 1 4 2 + 0 None, transposed false\n\
    print 3\n\
    print 4\n\
    print 5\n";

fn is_job(rt: &impl Abort, alloc: Global, job: &Job, given: &str) -> Result<(), AllocError> {
    assert_eq!(rt; given_lines(alloc, job)?.as_str(), given);
    assert_eq!(rt; step_lines(alloc, job)?.as_str(), STATEMENTS);
    Ok(())
}

fn are_files(
    rt: &impl Abort,
    alloc: Global,
    files: &[FileData],
    wanted: &[&str],
) -> Result<(), AllocError> {
    assert_eq!(rt; files.len(), wanted.len());
    for (file, lines) in files.iter().zip(wanted) {
        assert_eq!(rt; file_lines(alloc, file)?.as_str(), *lines);
    }
    Ok(())
}

#[test]
fn jobs(rt: HostRuntime) -> Result<(), Fail> {
    let alloc = rt.alloc();
    let three = "\
        ranks 4, parts 0\n\
        u 3 uniform\n\
        m 3 cyclic\n\
        x0 on 1 has 1 of x0\n\
        A on 0 and 0 of A, split false\n";
    is_job(&rt, alloc, &generated_job(alloc, 3)?, three)?;
    let one = "\
        ranks 4, parts 0\n\
        u 1 uniform\n\
        m 1 cyclic\n\
        x0 on 1 has 1 of x0\n\
        A on 0 and 0 of A, split false\n";
    is_job(&rt, alloc, &generated_job(alloc, 1)?, one)?;
    Ok(())
}

#[test]
fn files(rt: HostRuntime) -> Result<(), Fail> {
    let alloc = rt.alloc();
    let vector = "3 1 Plain\n0 0 1\n1 0 2\n2 0 3\n";
    let matrix = "3 3 Plain\n0 0 2\n0 1 -1\n1 0 -1\n1 1 2\n1 2 -1\n2 1 -1\n2 2 2\n";
    let three = generated_files(alloc, 3)?;
    are_files(&rt, alloc, three.as_slice(), &[vector, matrix])?;
    let one = generated_files(alloc, 1)?;
    are_files(
        &rt,
        alloc,
        one.as_slice(),
        &["1 1 Plain\n0 0 1\n", "1 1 Plain\n0 0 2\n"],
    )?;
    Ok(())
}
