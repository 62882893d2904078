//! The sizes of single files, and counts of ranks that are worked out by hand.
use crate::FitFault;
use crate::counts::{count_of, even_count};
use crate::values::{matrix_fits, vector_fits};
use model_defs::{
    FileData, Job, ListOf, MapForm, MapSpec, MatrixSpec, Mirror, Origin, Text, VectorSpec,
};
use std::alloc::{AllocError, Global};
use std::test::Fail;

/// A uniform map of this size.
fn map_of(alloc: Global, size: u64) -> Result<MapSpec, AllocError> {
    Ok(MapSpec {
        name: Text::new(alloc, "m")?,
        size,
        form: MapForm::Uniform,
    })
}

/// A job of maps of sizes 7 and 8.
fn two_maps(alloc: Global) -> Result<Job, AllocError> {
    let mut maps = Vec::new(alloc);
    maps.push(map_of(alloc, 7)?)?;
    maps.push(map_of(alloc, 8)?)?;
    Ok(Job {
        ranks: 2,
        maps: ListOf::new(maps),
        vectors: ListOf::new(Vec::new(alloc)),
        parts: ListOf::new(Vec::new(alloc)),
        matrices: ListOf::new(Vec::new(alloc)),
        steps: ListOf::new(Vec::new(alloc)),
    })
}

/// A file of these sizes, without entries, alone.
fn one_file(alloc: Global, rows: u64, cols: u64) -> Result<Vec<FileData>, AllocError> {
    let mut files = Vec::new(alloc);
    files.push(FileData {
        rows,
        cols,
        mirror: Mirror::Plain,
        lines: Vec::new(alloc),
    })?;
    Ok(files)
}

/// Whether a vector of two columns on the first map fits, whose file is the first one of these.
fn vector(job: &Job, spec: &VectorSpec, files: &[FileData]) -> bool {
    count_of(&spec.from) <= files.len() && vector_fits(job, spec, files, 0)
}

/// Whether a matrix fits, whose file is the first one of these.
fn matrix(job: &Job, spec: &MatrixSpec, files: &[FileData]) -> bool {
    !files.is_empty() && matrix_fits(job, spec, files, 0)
}

/// A vector's file has a row for each index of the map, and its columns. A vector of one number has no file.
#[test]
fn vectors(rt: HostRuntime) -> Result<(), Fail> {
    let alloc = rt.alloc();
    let job = two_maps(alloc)?;
    let mut names = Vec::new(alloc);
    names.push(Text::new(alloc, "f")?)?;
    let read = VectorSpec {
        name: Text::new(alloc, "x")?,
        map: 0,
        columns: 2,
        from: Origin::Files(ListOf::new(names)),
    };
    for (rows, cols, fits) in [(7, 2, true), (8, 2, false), (7, 3, false), (2, 7, false)] {
        assert!(rt; vector(&job, &read, one_file(alloc, rows, cols)?.as_slice()) == fits);
    }
    let filled = VectorSpec {
        name: Text::new(alloc, "y")?,
        map: 1,
        columns: 1,
        from: Origin::Fill(5),
    };
    assert!(rt; vector(&job, &filled, one_file(alloc, 9, 9)?.as_slice()));
    Ok(())
}

/// A matrix's file has the sizes of the row map and of the domain map.
#[test]
fn matrices(rt: HostRuntime) -> Result<(), Fail> {
    let alloc = rt.alloc();
    let job = two_maps(alloc)?;
    let spec = MatrixSpec {
        name: Text::new(alloc, "a")?,
        split: false,
        rows: 0,
        domain: 1,
        file: Text::new(alloc, "f")?,
    };
    for (rows, cols, fits) in [(7, 8, true), (8, 7, false), (7, 7, false)] {
        assert!(rt; matrix(&job, &spec, one_file(alloc, rows, cols)?.as_slice()) == fits);
    }
    Ok(())
}

/// 7 indices over 3 ranks are 3, 2 and 2.
#[test]
fn counts(rt: HostRuntime) -> Result<(), Fail> {
    for (rank, count) in [(0, 3), (1, 2), (2, 2)] {
        assert!(rt; even_count(3, 7, rank) == count);
    }
    Ok(())
}

#[test]
fn words(rt: HostRuntime) -> Result<(), Fail> {
    let fault = FitFault::SizeMismatch { value: 2 };
    assert_eq!(rt;
        format!(in rt.alloc(); "{fault}")?.as_str(),
        "SizeMismatch 2"
    );
    Ok(())
}
