//! Texts, tables and maps that are refused or accepted.
use super::each_after;
use std::test::Fail;

#[test]
fn texts(rt: HostRuntime) -> Result<(), Fail> {
    let alloc = rt.alloc();
    let head = "";
    let cases = [
        ("", "Missing ranks"),
        ("ranks = ", "NotToml"),
        ("ranks = 2\nranks = 3", "NotToml"),
        ("ranks = 9223372036854775808", "NotToml"),
        ("ranks = 2", "Ok"),
        ("ranks = '2'", "WrongKind ranks"),
        ("ranks = 2.0", "WrongKind ranks"),
        ("ranks = 0", "Limit ranks"),
        ("ranks = 33", "Limit ranks"),
        ("ranks = 32", "Ok"),
        ("ranks = -1", "Limit ranks"),
        ("zeta = 1\nalpha = 1\nranks = 0", "UnknownKey alpha"),
        ("Zeta = 1\nalpha = 1\nranks = 0", "UnknownKey Zeta"),
        ("map = 3", "Missing ranks"),
    ];
    each_after(&rt, alloc, head, &cases)?;
    Ok(())
}

#[test]
fn arrays(rt: HostRuntime) -> Result<(), Fail> {
    let alloc = rt.alloc();
    let head = "ranks = 2\n";
    let cases = [
        ("map = 3", "WrongKind map"),
        ("map = [3]", "WrongKind map"),
        ("map = []", "Ok"),
        ("[map]\nkind = 'uniform'", "WrongKind map"),
        ("vector = [{}, 1]", "WrongKind vector"),
        ("parts = true", "WrongKind parts"),
        ("matrix = ''", "WrongKind matrix"),
        ("do = {}", "WrongKind do"),
        ("do = 1\nmatrix = 1", "WrongKind matrix"),
        ("map = [{}]\ndo = 1", "WrongKind do"),
    ];
    each_after(&rt, alloc, head, &cases)?;
    Ok(())
}

#[test]
fn maps(rt: HostRuntime) -> Result<(), Fail> {
    let alloc = rt.alloc();
    let head = "ranks = 2\n[[map]]\n";
    let cases = [
        ("name = 'a'", "Missing map.0.kind"),
        ("kind = 1", "WrongKind map.0.kind"),
        ("kind = 'square'", "WrongKind map.0.kind"),
        (
            "kind = 'uniform'\nextra = 1\ncounts = []",
            "UnknownKey map.0.counts",
        ),
        ("kind = 'uniform'\nsize = 1", "Missing map.0.name"),
        (
            "kind = 'uniform'\nname = ''\nsize = -1",
            "WrongKind map.0.name",
        ),
        (
            "kind = 'uniform'\nname = 'a-b'\nsize = 1",
            "WrongKind map.0.name",
        ),
        ("kind = 'uniform'\nname = 'a'", "Missing map.0.size"),
        (
            "kind = 'uniform'\nname = 'a'\nsize = '1'",
            "WrongKind map.0.size",
        ),
        (
            "kind = 'uniform'\nname = 'a'\nsize = 16777217",
            "Limit map.0.size",
        ),
        ("kind = 'cyclic'\nname = 'a'\nsize = 16777216", "Ok"),
        ("kind = 'cyclic'\nname = 'a'\nsize = -1", "Limit map.0.size"),
        (
            "kind = 'lists'\nname = 'a'\nsize = 1099511627777",
            "Limit map.0.size",
        ),
        (
            "kind = 'lists'\nname = 'a'\nsize = 1099511627776\nlists = [[], [1099511627775]]",
            "Ok",
        ),
    ];
    each_after(&rt, alloc, head, &cases)?;
    Ok(())
}

#[test]
fn counts(rt: HostRuntime) -> Result<(), Fail> {
    let alloc = rt.alloc();
    let head = "ranks = 2\n[[map]]\nkind = 'blocks'\nname = 'b'\n";
    let cases = [
        ("", "Missing map.0.counts"),
        ("counts = 3", "WrongKind map.0.counts"),
        ("counts = [1]", "WrongKind map.0.counts"),
        ("counts = [1, '2']", "WrongKind map.0.counts"),
        ("counts = [1, 2, -3]", "WrongKind map.0.counts"),
        ("counts = [1, -2]", "Limit map.0.counts"),
        ("counts = [16777216, 1]", "Limit map.0.counts"),
        ("counts = [16777216, 0]", "Ok"),
        ("size = 3\ncounts = [1, 2]", "UnknownKey map.0.size"),
    ];
    each_after(&rt, alloc, head, &cases)?;
    Ok(())
}

#[test]
fn lists(rt: HostRuntime) -> Result<(), Fail> {
    let alloc = rt.alloc();
    let head = "ranks = 2\n[[map]]\nkind = 'lists'\nname = 'r'\nsize = 2\n";
    let cases = [
        ("", "Missing map.0.lists"),
        ("lists = [[0]]", "WrongKind map.0.lists"),
        ("lists = [[0], 1]", "WrongKind map.0.lists"),
        ("lists = [[0], [true]]", "WrongKind map.0.lists"),
        ("lists = [[-1], ['a']]", "WrongKind map.0.lists"),
        ("lists = [[0, 0], [-1]]", "Limit map.0.lists"),
        ("lists = [[0, 0], []]", "BadMap r"),
        ("lists = [[0], [2]]", "BadMap r"),
        ("lists = [[0, 1], [1]]", "Ok"),
    ];
    each_after(&rt, alloc, head, &cases)?;
    Ok(())
}

#[test]
fn names(rt: HostRuntime) -> Result<(), Fail> {
    let alloc = rt.alloc();
    let head =
        "ranks = 2\n[[map]]\nkind = 'uniform'\nname = 'u'\nsize = 4\n[[vector]]\nname = 'x'\nmap = 'u'\nfill = 1\n";
    let cases = [
        (
            "[[map]]\nkind = 'uniform'\nname = 'u'\nsize = 99999999",
            "NameTaken u",
        ),
        ("[[vector]]\nname = 'u'\nmap = '?'", "NameTaken u"),
        ("[[vector]]\nname = 'x'\nmap = 'none'", "NameTaken x"),
        ("[[vector]]\nname = 'y'\nmap = 'x'", "UnknownName x"),
        (
            "[[vector]]\nname = 'y'\nmap = '?'",
            "WrongKind vector.1.map",
        ),
        (
            "[[do]]\nop = 'scale'\nname = 'x'\nvalue = 'none'",
            "NameTaken x",
        ),
        (
            "[[do]]\nop = 'scale'\nname = 'z'\nvalue = 'z'\nalpha = 1",
            "UnknownName z",
        ),
        (
            "[[do]]\nop = 'scale'\nname = 'z'\nvalue = 'u'\nalpha = 1",
            "UnknownName u",
        ),
        (
            "[[do]]\nop = 'print'\nvalue = 'z'\n[[do]]\nop = 'scale'\nname = 'z'\nvalue = 'x'\nalpha = 1",
            "UnknownName z",
        ),
        (
            "[[do]]\nop = 'scale'\nname = 'z'\nvalue = 'x'\nalpha = 1\n[[do]]\nop = 'print'\nvalue = 'z'",
            "Ok",
        ),
    ];
    each_after(&rt, alloc, head, &cases)?;
    Ok(())
}
