//! Values and statements that are refused or accepted.
use super::each_after;
use std::test::Fail;

#[test]
fn vectors(rt: HostRuntime) -> Result<(), Fail> {
    let alloc = rt.alloc();
    let head =
        "ranks = 2\n[[map]]\nkind = 'uniform'\nname = 'u'\nsize = 4\n[[vector]]\nname = 'x'\nmap = 'u'\n";
    let cases = [
        ("", "Missing vector.0.file"),
        ("fill = 1", "Ok"),
        ("file = 'x.mtx'", "Ok"),
        ("file = ''", "WrongKind vector.0.file"),
        ("file = 1", "WrongKind vector.0.file"),
        ("fill = '1'", "WrongKind vector.0.fill"),
        ("fill = 1\nfile = 1", "UnknownKey vector.0.fill"),
        ("fill = 1\nfile = 1\na = 1", "UnknownKey vector.0.a"),
        ("columns = 17\nfill = '1'", "Limit vector.0.columns"),
        ("columns = 0\nfill = 1", "Limit vector.0.columns"),
        ("columns = '1'\nfill = 1", "WrongKind vector.0.columns"),
        ("columns = 16\nfill = 1", "Ok"),
        ("files = ['a']\nfill = 1", "UnknownKey vector.0.files"),
    ];
    each_after(&rt, alloc, head, &cases)?;
    Ok(())
}

#[test]
fn own_tests(rt: HostRuntime) -> Result<(), Fail> {
    let alloc = rt.alloc();
    let head =
        "ranks = 2\n[[map]]\nkind = 'lists'\nname = 'r'\nsize = 1\nlists = [[0], [0]]\n[[map]]\nkind = 'uniform'\nname = 'big'\nsize = 16777216\n[[map]]\nkind = 'uniform'\nname = 'u'\nsize = 1\n[[map]]\nkind = 'lists'\nname = 'h'\nsize = 2\nlists = [[0], []]\n";
    let cases = [
        ("[[vector]]\nname = 'x'\nmap = 'r'\nfill = 0", "BadMap r"),
        ("[[vector]]\nname = 'x'\nmap = 'big'\nfill = 0", "Ok"),
        (
            "[[vector]]\nname = 'x'\nmap = 'big'\ncolumns = 2\nfill = 0",
            "Limit vector.0.columns",
        ),
        (
            "[[parts]]\nname = 'p'\nmap = 'big'\ncolumns = 2\nfill = 0",
            "Limit parts.0.columns",
        ),
        ("[[parts]]\nname = 'p'\nmap = 'r'\nfiles = ['a', 'b']", "Ok"),
        (
            "[[parts]]\nname = 'p'\nmap = 'r'\nfiles = ['a']",
            "WrongKind parts.0.files",
        ),
        (
            "[[parts]]\nname = 'p'\nmap = 'r'\nfiles = ['a', '']",
            "WrongKind parts.0.files",
        ),
        ("[[parts]]\nname = 'p'\nmap = 'r'", "Missing parts.0.files"),
        (
            "[[matrix]]\nname = 'A'\nkind = 'assembled'\nrows = 'r'\ndomain = 'h'\nfile = 'a'",
            "BadMap r",
        ),
        (
            "[[matrix]]\nname = 'A'\nkind = 'split'\nrows = 'u'\ndomain = 'h'\nfile = 'a'",
            "BadMap h",
        ),
        (
            "[[matrix]]\nname = 'A'\nkind = 'whole'\nrows = 'u'\ndomain = 'h'\nfile = 'a'",
            "WrongKind matrix.0.kind",
        ),
        (
            "[[matrix]]\nname = 'A'\nkind = 'split'\nrows = 'u'\ndomain = 'u'",
            "Missing matrix.0.file",
        ),
        (
            "[[matrix]]\nname = 'A'\nkind = 'split'\nrows = 'u'\ndomain = 'big'\nfile = 'a'",
            "Ok",
        ),
    ];
    each_after(&rt, alloc, head, &cases)?;
    Ok(())
}

/// Maps, vectors, parts, and matrices of both kinds.
const HEAD: &str = "
ranks = 2
map = [
    {name = 'u', kind = 'uniform', size = 2},
    {name = 'c', kind = 'cyclic', size = 2},
    {name = 'h', kind = 'lists', size = 2, lists = [[0], []]},
    {name = 'o', kind = 'lists', size = 2, lists = [[0, 1], [1]]},
    {name = 'w', kind = 'uniform', size = 3},
]
vector = [
    {name = 'x', map = 'u', fill = 1},
    {name = 'xh', map = 'h', fill = 1},
    {name = 'x2', map = 'u', columns = 2, fill = 1},
]
parts = [{name = 'p', map = 'o', fill = 1}]
matrix = [
    {name = 'A', kind = 'assembled', rows = 'u', domain = 'c', file = 'a'},
    {name = 'S', kind = 'split', rows = 'u', domain = 'c', file = 'a'},
]
[[do]]
";

#[test]
fn transfers(rt: HostRuntime) -> Result<(), Fail> {
    let alloc = rt.alloc();
    let cases = [
        (
            "op = 'move'\nname = 'y'\nfrom = 'p'\nmap = 'c'",
            "WrongSort 0",
        ),
        (
            "op = 'move'\nname = 'y'\nfrom = 'x'\nmap = 'w'",
            "MapMismatch 0",
        ),
        ("op = 'move'\nname = 'y'\nfrom = 'x'\nmap = 'o'", "BadMap o"),
        ("op = 'move'\nname = 'y'\nfrom = 'A'\nmap = 'h'", "BadMap h"),
        (
            "op = 'move'\nname = 'y'\nfrom = 'xh'\nmap = 'u'",
            "NotCovered 0",
        ),
        ("op = 'move'\nname = 'y'\nfrom = 'x'\nmap = 'h'", "Ok"),
        (
            "op = 'import'\nname = 'y'\nfrom = 'p'\nonto = 'p'\nmode = 'add'",
            "WrongSort 0",
        ),
        (
            "op = 'import'\nname = 'y'\nfrom = 'x2'\nonto = 'p'\nmode = 'add'",
            "MapMismatch 0",
        ),
        (
            "op = 'import'\nname = 'y'\nfrom = 'x'\nonto = 'p'\nmode = 'plus'",
            "WrongKind do.0.mode",
        ),
        (
            "op = 'export'\nname = 'y'\nfrom = 'p'\nonto = 'x'",
            "Missing do.0.mode",
        ),
        (
            "op = 'export'\nname = 'y'\nfrom = 'p'\nonto = 'xh'\nmode = 'zero'",
            "Ok",
        ),
        (
            "op = 'spread'\nname = 'y'\nfrom = 'x'\nmap = 'w'",
            "MapMismatch 0",
        ),
    ];
    each_after(&rt, alloc, HEAD, &cases)?;
    Ok(())
}

#[test]
fn operations(rt: HostRuntime) -> Result<(), Fail> {
    let alloc = rt.alloc();
    let cases = [
        ("op = 'solve'\nname = 'y'", "WrongKind do.0.op"),
        ("name = 'y'", "Missing do.0.op"),
        ("op = 'update'\nname = 'y'\nx = 'x'\ny = 'p'", "WrongSort 0"),
        (
            "op = 'update'\nname = 'y'\nx = 'x'\ny = 'x2'",
            "MapMismatch 0",
        ),
        (
            "op = 'update'\nname = 'y'\nx = 'x'\ny = 'x'\nbeta = 1.5",
            "WrongKind do.0.beta",
        ),
        (
            "op = 'scale'\nname = 'y'\nvalue = 'x'",
            "Missing do.0.alpha",
        ),
        (
            "op = 'apply'\nname = 'y'\nmatrix = 'A'\nx = 'x'",
            "MapMismatch 0",
        ),
        (
            "op = 'apply'\nname = 'y'\nmatrix = 'A'\nx = 'x'\ntransposed = 1",
            "WrongKind do.0.transposed",
        ),
        (
            "op = 'apply'\nname = 'y'\nmatrix = 'A'\nx = 'x'\ntransposed = true",
            "Ok",
        ),
        (
            "op = 'apply'\nname = 'y'\nmatrix = 'S'\nx = 'x'\ny = 'x'\ntransposed = true",
            "MapMismatch 0",
        ),
        (
            "op = 'apply'\nname = 'y'\nmatrix = 'x'\nx = 'x'",
            "WrongSort 0",
        ),
        ("op = 'transpose'\nname = 'y'\nmatrix = 'S'", "WrongSort 0"),
    ];
    each_after(&rt, alloc, HEAD, &cases)?;
    Ok(())
}

#[test]
fn matrix_operations(rt: HostRuntime) -> Result<(), Fail> {
    let alloc = rt.alloc();
    let cases = [
        (
            "op = 'multiply'\nname = 'y'\na = 'A'\nb = 'A'",
            "MapMismatch 0",
        ),
        (
            "op = 'multiply'\nname = 'y'\na = 'A'\nb = 'x'",
            "WrongSort 0",
        ),
        (
            "op = 'add'\nname = 'y'\na = 'A'\nb = 'A'\ngamma = 1",
            "UnknownKey do.0.gamma",
        ),
        ("op = 'add'\nname = 'y'\na = 'A'\nb = 'A'", "Ok"),
        ("op = 'assemble'\nname = 'y'\nfrom = 'A'", "WrongSort 0"),
        ("op = 'assemble'\nname = 'y'\nfrom = 'S'\nonto = 'A'", "Ok"),
        (
            "op = 'assemble'\nname = 'y'\nfrom = 'S'\n[[do]]\nop = 'transpose'\nname = 't'\nmatrix = 'y'\n[[do]]\nop = 'assemble'\nname = 'z'\nfrom = 'S'\nonto = 't'",
            "MapMismatch 2",
        ),
        ("op = 'print'\nvalue = 'S'", "WrongSort 0"),
        (
            "op = 'print'\nvalue = 'x'\n[[do]]\nop = 'print'\nvalue = 'S'",
            "WrongSort 1",
        ),
        (
            "op = 'print'\nvalue = 'x'\nname = 'y'",
            "UnknownKey do.0.name",
        ),
    ];
    each_after(&rt, alloc, HEAD, &cases)?;
    Ok(())
}
