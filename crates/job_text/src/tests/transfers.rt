//! Moves, imports, exports and spreads that are refused or accepted.
use super::shown;
use crate::read_job;
use model_defs::{Job, Step};
use std::alloc::{AllocError, Global};
use std::process::Abort;
use std::test::Fail;

/// Maps, the vectors 0 to 3 and the parts 4 to 6.
const HEAD: &str = "
ranks = 2
map = [
    {name = 'u', kind = 'uniform', size = 2},
    {name = 'h', kind = 'lists', size = 2, lists = [[0], []]},
    {name = 'o', kind = 'lists', size = 2, lists = [[0, 1], [1]]},
    {name = 'w', kind = 'uniform', size = 3},
]
vector = [
    {name = 'x', map = 'u', columns = 1, fill = 1},
    {name = 'xh', map = 'h', columns = 1, fill = 1},
    {name = 'x2', map = 'u', columns = 2, fill = 1},
    {name = 'xw', map = 'w', columns = 1, fill = 1},
]
parts = [
    {name = 'p', map = 'o', columns = 1, fill = 1},
    {name = 'p2', map = 'o', columns = 2, fill = 1},
    {name = 'pw', map = 'w', columns = 1, fill = 1},
]
do = [";

/// A statement that moves, copies or combines cells, as the tests write it: its operands by their numbers, and its mode.
fn transfer(alloc: Global, step: &Step) -> Result<String, AllocError> {
    match step {
        Step::Move { from, map, .. } => format!(in alloc; "move {from} to {map}"),
        Step::Spread { from, map, .. } => format!(in alloc; "spread {from} to {map}"),
        Step::Import {
            from,
            onto,
            mode,
            ..
        } => format!(in alloc; "import {from} onto {onto} {mode:?}"),
        Step::Export {
            from,
            onto,
            mode,
            ..
        } => format!(in alloc; "export {from} onto {onto} {mode:?}"),
        _ => String::from_str(alloc, "?"),
    }
}

/// The last statement of a job.
fn last_step(alloc: Global, job: &Job) -> Result<String, AllocError> {
    match job.steps.as_slice().last() {
        Some(step) => transfer(alloc, step),
        None => String::from_str(alloc, "none"),
    }
}

/// What is read of a text: its last statement, or its fault.
fn answer(alloc: Global, text: &[u8]) -> Result<String, AllocError> {
    match read_job(alloc, text) {
        Ok(job) => last_step(alloc, &job),
        Err(fault) => shown(alloc, &fault),
    }
}

/// The statements after the head have this answer.
fn read(rt: &impl Abort, alloc: Global, steps: &str, wanted: &str) -> Result<(), Fail> {
    let text = format!(in alloc; "{HEAD}{steps}]")?;
    let found = answer(alloc, text.as_bytes())?;
    assert_eq!(rt; found.as_str(), wanted, "{steps}");
    Ok(())
}

/// Each line has statements and, behind `=>`, their answer: the last one as it is read, or the fault.
fn read_each(rt: &impl Abort, alloc: Global, lines: &str, count: u32) -> Result<(), Fail> {
    let mut found = 0u32;
    for line in lines.split('\n') {
        if let Some((steps, wanted)) = line.split_once(" => ") {
            read(rt, alloc, steps, wanted)?;
            found = found.saturating_add(1);
        }
    }
    assert_eq!(rt; found, count);
    Ok(())
}

/// The keys of an import: `name`, `from`, `onto`, `mode`.
const KEYS_OF_IMPORTS: &str = "
{op = 'import'} => Missing do.0.name
{op = 'import', from = 'x', onto = 'p', mode = 'add'} => Missing do.0.name
{op = 'import', name = 1, from = 'x', onto = 'p', mode = 'add'} => WrongKind do.0.name
{op = 'import', name = 'a b', from = 'x', onto = 'p', mode = 'add'} => WrongKind do.0.name
{op = 'import', name = 'p', from = 'x', onto = 'p', mode = 'add'} => NameTaken p
{op = 'import', name = 'x', from = 'none', onto = 'p', mode = 'add'} => NameTaken x
{op = 'import', name = 'y', onto = 'p', mode = 'add'} => Missing do.0.from
{op = 'import', name = 'y', from = 1, onto = 'p', mode = 'add'} => WrongKind do.0.from
{op = 'import', name = 'y', from = 'none', onto = 'p', mode = 'add'} => UnknownName none
{op = 'import', name = 'y', from = 'y', onto = 'p', mode = 'add'} => UnknownName y
{op = 'import', name = 'y', from = 'u', onto = 'p', mode = 'add'} => UnknownName u
{op = 'import', name = 'y', from = 'none', onto = 1, mode = 'add'} => UnknownName none
{op = 'import', name = 'y', from = 'x', mode = 'add'} => Missing do.0.onto
{op = 'import', name = 'y', from = 'x', onto = ['p'], mode = 'add'} => WrongKind do.0.onto
{op = 'import', name = 'y', from = 'x', onto = 'none', mode = 'add'} => UnknownName none
{op = 'import', name = 'y', from = 'x', onto = 'u', mode = 'add'} => UnknownName u
{op = 'import', name = 'y', from = 'x', onto = 'none', mode = 'plus'} => UnknownName none
{op = 'import', name = 'y', from = 'x', onto = 'p'} => Missing do.0.mode
{op = 'import', name = 'y', from = 'x', onto = 'p', mode = 1} => WrongKind do.0.mode
{op = 'import', name = 'y', from = 'x', onto = 'p', mode = ''} => WrongKind do.0.mode
{op = 'import', name = 'y', from = 'x', onto = 'p', mode = 'plus'} => WrongKind do.0.mode
{op = 'import', name = 'y', from = 'x', onto = 'p', mode = 'Add'} => WrongKind do.0.mode
{op = 'import', name = 'y', from = 'x', onto = 'p', mode = 'abs_max'} => WrongKind do.0.mode
{op = 'import', name = 'y', from = 'x', onto = 'p', mode = 'insert '} => WrongKind do.0.mode
{op = 'import', name = 'y', from = 'x', onto = 'p', mode = 'add', map = 'o'} => UnknownKey do.0.map
{op = 'import', from = 'x', onto = 'p', mode = 'add', beta = 1} => UnknownKey do.0.beta
{op = 'import', name = 1, from = 'x', onto = 'p', mode = 'add', value = 'x', alpha = 1} => UnknownKey do.0.alpha
";

#[test]
fn keys_of_imports(rt: HostRuntime) -> Result<(), Fail> {
    let alloc = rt.alloc();
    read_each(&rt, alloc, KEYS_OF_IMPORTS, 27)
}

/// The keys of an export: `name`, `from`, `onto`, `mode`.
const KEYS_OF_EXPORTS: &str = "
{op = 'export'} => Missing do.0.name
{op = 'export', from = 'p', onto = 'x', mode = 'add'} => Missing do.0.name
{op = 'export', name = 1, from = 'p', onto = 'x', mode = 'add'} => WrongKind do.0.name
{op = 'export', name = 'a b', from = 'p', onto = 'x', mode = 'add'} => WrongKind do.0.name
{op = 'export', name = 'x', from = 'p', onto = 'x', mode = 'add'} => NameTaken x
{op = 'export', name = 'x', from = 'none', onto = 'x', mode = 'add'} => NameTaken x
{op = 'export', name = 'y', onto = 'x', mode = 'add'} => Missing do.0.from
{op = 'export', name = 'y', from = 1, onto = 'x', mode = 'add'} => WrongKind do.0.from
{op = 'export', name = 'y', from = 'none', onto = 'x', mode = 'add'} => UnknownName none
{op = 'export', name = 'y', from = 'y', onto = 'x', mode = 'add'} => UnknownName y
{op = 'export', name = 'y', from = 'u', onto = 'x', mode = 'add'} => UnknownName u
{op = 'export', name = 'y', from = 'none', onto = 1, mode = 'add'} => UnknownName none
{op = 'export', name = 'y', from = 'p', mode = 'add'} => Missing do.0.onto
{op = 'export', name = 'y', from = 'p', onto = ['x'], mode = 'add'} => WrongKind do.0.onto
{op = 'export', name = 'y', from = 'p', onto = 'none', mode = 'add'} => UnknownName none
{op = 'export', name = 'y', from = 'p', onto = 'u', mode = 'add'} => UnknownName u
{op = 'export', name = 'y', from = 'p', onto = 'none', mode = 'plus'} => UnknownName none
{op = 'export', name = 'y', from = 'p', onto = 'x'} => Missing do.0.mode
{op = 'export', name = 'y', from = 'p', onto = 'x', mode = 1} => WrongKind do.0.mode
{op = 'export', name = 'y', from = 'p', onto = 'x', mode = ''} => WrongKind do.0.mode
{op = 'export', name = 'y', from = 'p', onto = 'x', mode = 'plus'} => WrongKind do.0.mode
{op = 'export', name = 'y', from = 'p', onto = 'x', mode = 'Add'} => WrongKind do.0.mode
{op = 'export', name = 'y', from = 'p', onto = 'x', mode = 'abs_max'} => WrongKind do.0.mode
{op = 'export', name = 'y', from = 'p', onto = 'x', mode = 'insert '} => WrongKind do.0.mode
{op = 'export', name = 'y', from = 'p', onto = 'x', mode = 'add', map = 'o'} => UnknownKey do.0.map
{op = 'export', from = 'p', onto = 'x', mode = 'add', beta = 1} => UnknownKey do.0.beta
{op = 'export', name = 1, from = 'p', onto = 'x', mode = 'add', value = 'x', alpha = 1} => UnknownKey do.0.alpha
";

#[test]
fn keys_of_exports(rt: HostRuntime) -> Result<(), Fail> {
    let alloc = rt.alloc();
    read_each(&rt, alloc, KEYS_OF_EXPORTS, 27)
}

/// The keys of a spread: `name`, `from`, `map`.
const KEYS_OF_SPREADS: &str = "
{op = 'spread'} => Missing do.0.name
{op = 'spread', from = 'x', map = 'o'} => Missing do.0.name
{op = 'spread', name = 1, from = 'x', map = 'o'} => WrongKind do.0.name
{op = 'spread', name = 'a b', from = 'x', map = 'o'} => WrongKind do.0.name
{op = 'spread', name = 'o', from = 'x', map = 'o'} => NameTaken o
{op = 'spread', name = 'x', from = 'none', map = 'o'} => NameTaken x
{op = 'spread', name = 'y', map = 'o'} => Missing do.0.from
{op = 'spread', name = 'y', from = 1, map = 'o'} => WrongKind do.0.from
{op = 'spread', name = 'y', from = 'none', map = 'o'} => UnknownName none
{op = 'spread', name = 'y', from = 'y', map = 'o'} => UnknownName y
{op = 'spread', name = 'y', from = 'u', map = 'o'} => UnknownName u
{op = 'spread', name = 'y', from = 'none', map = 1} => UnknownName none
{op = 'spread', name = 'y', from = 'x'} => Missing do.0.map
{op = 'spread', name = 'y', from = 'x', map = ['o']} => WrongKind do.0.map
{op = 'spread', name = 'y', from = 'x', map = 'none'} => UnknownName none
{op = 'spread', name = 'y', from = 'x', map = 'x'} => UnknownName x
{op = 'spread', name = 'y', from = 'x', map = 'o', onto = 'p'} => UnknownKey do.0.onto
{op = 'spread', from = 'x', map = 'o', mode = 'add'} => UnknownKey do.0.mode
{op = 'spread', name = 1, from = 'x', map = 'o', to = 'o', alpha = 1} => UnknownKey do.0.alpha
";

#[test]
fn keys_of_spreads(rt: HostRuntime) -> Result<(), Fail> {
    let alloc = rt.alloc();
    read_each(&rt, alloc, KEYS_OF_SPREADS, 19)
}

/// What the operands must be: first the sorts, then sizes and columns.
const OPERANDS: &str = "
{op = 'import', name = 'y', from = 'p', onto = 'p', mode = 'add'} => WrongSort 0
{op = 'import', name = 'y', from = 'x', onto = 'x', mode = 'add'} => WrongSort 0
{op = 'import', name = 'y', from = 'p', onto = 'x', mode = 'add'} => WrongSort 0
{op = 'import', name = 'y', from = 'x2', onto = 'xw', mode = 'add'} => WrongSort 0
{op = 'import', name = 'y', from = 'x', onto = 'pw', mode = 'add'} => MapMismatch 0
{op = 'import', name = 'y', from = 'xw', onto = 'p', mode = 'add'} => MapMismatch 0
{op = 'import', name = 'y', from = 'x', onto = 'p2', mode = 'add'} => MapMismatch 0
{op = 'import', name = 'y', from = 'x2', onto = 'p', mode = 'add'} => MapMismatch 0
{op = 'import', name = 'y', from = 'p', onto = 'p', mode = 'plus'} => WrongKind do.0.mode
{op = 'export', name = 'y', from = 'x', onto = 'x', mode = 'add'} => WrongSort 0
{op = 'export', name = 'y', from = 'p', onto = 'p', mode = 'add'} => WrongSort 0
{op = 'export', name = 'y', from = 'x', onto = 'p', mode = 'add'} => WrongSort 0
{op = 'export', name = 'y', from = 'p2', onto = 'pw', mode = 'add'} => WrongSort 0
{op = 'export', name = 'y', from = 'pw', onto = 'x', mode = 'add'} => MapMismatch 0
{op = 'export', name = 'y', from = 'p', onto = 'xw', mode = 'add'} => MapMismatch 0
{op = 'export', name = 'y', from = 'p2', onto = 'x', mode = 'add'} => MapMismatch 0
{op = 'export', name = 'y', from = 'p', onto = 'x2', mode = 'add'} => MapMismatch 0
{op = 'export', name = 'y', from = 'x', onto = 'x', mode = 'plus'} => WrongKind do.0.mode
{op = 'spread', name = 'y', from = 'p', map = 'o'} => WrongSort 0
{op = 'spread', name = 'y', from = 'p', map = 'w'} => WrongSort 0
{op = 'spread', name = 'y', from = 'x', map = 'w'} => MapMismatch 0
{op = 'spread', name = 'y', from = 'xw', map = 'o'} => MapMismatch 0
";

#[test]
fn operands(rt: HostRuntime) -> Result<(), Fail> {
    let alloc = rt.alloc();
    read_each(&rt, alloc, OPERANDS, 22)
}

/// A fault of a later statement has its number; the operands may be what earlier ones made.
const LATER_STATEMENTS: &str = "
{op = 'print', value = 'x'}, {op = 'import', name = 'y', from = 'p', onto = 'p', mode = 'add'} => WrongSort 1
{op = 'spread', name = 'y', from = 'x', map = 'o'}, {op = 'import', name = 'z', from = 'y', onto = 'p', mode = 'add'} => WrongSort 1
{op = 'spread', name = 'y', from = 'x', map = 'o'}, {op = 'spread', name = 'z', from = 'y', map = 'o'} => WrongSort 1
{op = 'spread', name = 'y', from = 'x', map = 'o'}, {op = 'move', name = 'z', from = 'y', map = 'u'} => WrongSort 1
{op = 'import', name = 'y', from = 'x', onto = 'p', mode = 'add'}, {op = 'export', name = 'z', from = 'y', onto = 'p', mode = 'add'} => WrongSort 1
{op = 'export', name = 'y', from = 'p', onto = 'x', mode = 'add'}, {op = 'export', name = 'z', from = 'y', onto = 'x', mode = 'add'} => WrongSort 1
{op = 'export', name = 'y', from = 'p', onto = 'xh', mode = 'add'}, {op = 'print', value = 'y'}, {op = 'spread', name = 'z', from = 'y', map = 'w'} => MapMismatch 2
{op = 'spread', name = 'y', from = 'x2', map = 'o'}, {op = 'import', name = 'z', from = 'x', onto = 'y', mode = 'add'} => MapMismatch 1
{op = 'import', name = 'y', from = 'x', onto = 'p', mode = 'add'}, {op = 'update', name = 'z', x = 'y', y = 'p2'} => MapMismatch 1
{op = 'spread', name = 'y', from = 'x', map = 'u'}, {op = 'update', name = 'z', x = 'y', y = 'p'} => MapMismatch 1
{op = 'spread', name = 'y', from = 'x', map = 'o'}, {op = 'update', name = 'z', x = 'y', y = 'x'} => WrongSort 1
{op = 'export', name = 'y', from = 'p', onto = 'xh', mode = 'add'}, {op = 'move', name = 'z', from = 'y', map = 'u'} => NotCovered 1
{op = 'print', value = 'p'}, {op = 'export', name = 'y', from = 'p', onto = 'xh', mode = 'add'}, {op = 'print', value = 'y'}, {op = 'move', name = 'z', from = 'y', map = 'u'} => NotCovered 3
{op = 'export', name = 'y', from = 'p', onto = 'x', mode = 'add'}, {op = 'move', name = 'z', from = 'y', map = 'o'} => BadMap o
{op = 'export', name = 'y', from = 'p', onto = 'x', mode = 'add'}, {op = 'move', name = 'z', from = 'y', map = 'w'} => MapMismatch 1
{op = 'import', name = 'y', from = 'x', onto = 'p', mode = 'add'}, {op = 'spread', name = 'y', from = 'x', map = 'o'} => NameTaken y
{op = 'import', name = 'y', from = 'x', onto = 'p', mode = 'add'}, {op = 'spread', name = 'z', from = 'x', map = 'o'}, {op = 'import', name = 'z', from = 'x', onto = 'z', mode = 'zero'} => NameTaken z
{op = 'import', name = 'y', from = 'x', onto = 'p', mode = 'add'}, {op = 'import', name = 'z', from = 'x', onto = 'y'} => Missing do.1.mode
{op = 'spread', name = 'y', from = 'x', map = 'o'}, {op = 'spread', name = 'z', from = 'x', map = 'o', mode = 'add'} => UnknownKey do.1.mode
{op = 'print', value = 'x'}, {op = 'print', value = 'p'}, {op = 'export', name = 'y', from = 'p', onto = 'x', mode = 'max'} => WrongKind do.2.mode
";

#[test]
fn later_statements(rt: HostRuntime) -> Result<(), Fail> {
    let alloc = rt.alloc();
    read_each(&rt, alloc, LATER_STATEMENTS, 20)
}

/// What is accepted: the operands by their numbers, and the mode.
const ACCEPTED: &str = "
{op = 'import', name = 'y', from = 'x', onto = 'p', mode = 'insert'} => import 0 onto 4 Insert
{op = 'export', name = 'y', from = 'p', onto = 'x', mode = 'insert'} => export 4 onto 0 Insert
{op = 'import', name = 'y', from = 'x', onto = 'p', mode = 'replace'} => import 0 onto 4 Replace
{op = 'export', name = 'y', from = 'p', onto = 'x', mode = 'replace'} => export 4 onto 0 Replace
{op = 'import', name = 'y', from = 'x', onto = 'p', mode = 'add'} => import 0 onto 4 Add
{op = 'export', name = 'y', from = 'p', onto = 'x', mode = 'add'} => export 4 onto 0 Add
{op = 'import', name = 'y', from = 'x', onto = 'p', mode = 'absmax'} => import 0 onto 4 AbsMax
{op = 'export', name = 'y', from = 'p', onto = 'x', mode = 'absmax'} => export 4 onto 0 AbsMax
{op = 'import', name = 'y', from = 'x', onto = 'p', mode = 'zero'} => import 0 onto 4 Zero
{op = 'export', name = 'y', from = 'p', onto = 'x', mode = 'zero'} => export 4 onto 0 Zero
{op = 'import', name = 'y', from = 'xh', onto = 'p', mode = 'add'} => import 1 onto 4 Add
{op = 'import', name = 'y', from = 'xw', onto = 'pw', mode = 'add'} => import 3 onto 6 Add
{op = 'import', name = 'y', from = 'x2', onto = 'p2', mode = 'add'} => import 2 onto 5 Add
{op = 'export', name = 'y', from = 'p', onto = 'xh', mode = 'add'} => export 4 onto 1 Add
{op = 'export', name = 'y', from = 'pw', onto = 'xw', mode = 'add'} => export 6 onto 3 Add
{op = 'export', name = 'y', from = 'p2', onto = 'x2', mode = 'add'} => export 5 onto 2 Add
{op = 'spread', name = 'y', from = 'x', map = 'u'} => spread 0 to 0
{op = 'spread', name = 'y', from = 'x', map = 'o'} => spread 0 to 2
{op = 'spread', name = 'y', from = 'x', map = 'h'} => spread 0 to 1
{op = 'spread', name = 'y', from = 'xh', map = 'u'} => spread 1 to 0
{op = 'spread', name = 'y', from = 'xh', map = 'o'} => spread 1 to 2
{op = 'spread', name = 'y', from = 'x2', map = 'o'} => spread 2 to 2
{op = 'move', name = 'y', from = 'x', map = 'h'} => move 0 to 1
{op = 'spread', name = 'y', from = 'x', map = 'o'}, {op = 'import', name = 'z', from = 'xh', onto = 'y', mode = 'insert'} => import 1 onto 7 Insert
{op = 'import', name = 'y', from = 'x', onto = 'p', mode = 'add'}, {op = 'import', name = 'z', from = 'x', onto = 'y', mode = 'replace'} => import 0 onto 7 Replace
{op = 'import', name = 'y', from = 'x', onto = 'p', mode = 'add'}, {op = 'export', name = 'z', from = 'y', onto = 'xh', mode = 'absmax'} => export 7 onto 1 AbsMax
{op = 'spread', name = 'y', from = 'x', map = 'o'}, {op = 'print', value = 'y'}, {op = 'export', name = 'z', from = 'y', onto = 'x', mode = 'zero'} => export 7 onto 0 Zero
{op = 'export', name = 'y', from = 'p', onto = 'x', mode = 'add'}, {op = 'export', name = 'z', from = 'p', onto = 'y', mode = 'add'} => export 4 onto 7 Add
{op = 'export', name = 'y', from = 'p', onto = 'xh', mode = 'add'}, {op = 'spread', name = 'z', from = 'y', map = 'o'} => spread 7 to 2
{op = 'export', name = 'y', from = 'p', onto = 'x', mode = 'add'}, {op = 'move', name = 'z', from = 'y', map = 'h'} => move 7 to 1
{op = 'export', name = 'y', from = 'p', onto = 'x', mode = 'add'}, {op = 'spread', name = 'z', from = 'y', map = 'o'}, {op = 'import', name = 'v', from = 'y', onto = 'z', mode = 'add'} => import 7 onto 8 Add
";

#[test]
fn accepted(rt: HostRuntime) -> Result<(), Fail> {
    let alloc = rt.alloc();
    read_each(&rt, alloc, ACCEPTED, 31)
}
