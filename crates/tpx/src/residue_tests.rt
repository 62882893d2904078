//! A job on another kind of number than the program's.
ghost use Rattle.std.specs.Prelude.{map};
ghost use Rattle.mm_text.specs.Reading.{file_of};
ghost use Rattle.model_defs.specs.Fitting.{IsFitting};
ghost use Rattle.model_defs.specs.Valid.{IsValid};

use crate::export_tests::{AND_BACK, PRINT_Y, THERE};
use crate::move_tests::TO_CYCLIC;
use crate::test_runs::{CASE, Case, files_of};
use outside::MailRoom;
use rank_sim::{End, run_with};
use run_input::{Given, read_given};
use run_words::OrderWord;
use scalar_laws::{Mod1000, Residue};
use std::alloc::{AllocError, Global};
use std::process::Abort;
use std::test::Fail;

/// The values that a job prints, all numbers being residues below 1000.
fn printed_residues(alloc: Global, given: &Given) -> Result<Vec<i128>, AllocError>
    requires valid { IsValid given.now.job.value }
    requires fitting { IsFitting given.now.job.value (map file_of given.now.files.items) }
{
    let mut values = Vec::new(alloc);
    let mut wire = MailRoom::new(alloc);
    if let Ok(End::Done(outcome)) = run_with::<Residue<Mod1000>, MailRoom>(
        alloc,
        &given.job,
        &given.files,
        &mut wire,
        &given.order,
    ) {
        for sheet in &outcome.sheets {
            for cell in sheet.cells.as_slice() {
                values.push(cell.value)?;
            }
        }
    }
    Ok(values)
}

/// The residues that the job of a case prints.
fn residues_of(alloc: Global, case: &Case) -> Result<Vec<i128>, AllocError> {
    let mut files = files_of(alloc, case)?;
    match read_given(alloc, &mut files, "j.toml", OrderWord::Fifo) {
        Ok(given) => printed_residues(alloc, &given),
        Err(_) => Ok(Vec::new(alloc)),
    }
}

/// A job of x, which is 1, -1 and 1000.
const OF_RESIDUES: Case = Case {
    x: "%%MatrixMarket matrix array integer general\n3 1\n1\n-1\n1000\n",
    ..CASE
};

const CASES: [(Case, [i128; 3]); 4] = [
    (
        Case {
            name: "a job runs on residues",
            job: &[
                "ranks = 2\n[[map]]\nname = \"u\"\nkind = \"uniform\"\nsize = 3\n[[vector]]\nname = \"x\"\nmap = \"u\"\nfile = \"x.mtx\"\n[[do]]\nop = \"update\"\nname = \"z\"\nx = \"x\"\ny = \"x\"\nalpha = 2\n[[do]]\nop = \"print\"\nvalue = \"z\"\n",
            ],
            ..OF_RESIDUES
        },
        [3, 997, 0],
    ),
    (
        Case {
            name: "residues are moved",
            job: TO_CYCLIC,
            ..OF_RESIDUES
        },
        [1, 999, 0],
    ),
    (
        Case {
            name: "residues are added",
            job: &[THERE, "999", AND_BACK, "add", PRINT_Y],
            ..OF_RESIDUES
        },
        [0, 1, 0],
    ),
    (
        Case {
            name: "the greatest residues",
            job: &[THERE, "999", AND_BACK, "absmax", PRINT_Y],
            ..OF_RESIDUES
        },
        [999, 999, 999],
    ),
];

#[test]
fn a_job_runs_on_residues(rt: HostRuntime) -> Result<(), Fail> {
    for (case, wanted) in &CASES {
        let values = residues_of(rt.alloc(), case)?;
        assert_eq!(rt; values.as_slice(), wanted.as_slice(), "{}", case.name);
    }
    Ok(())
}
