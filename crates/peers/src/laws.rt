//! What holds of the letters of every protocol. The functions do nothing: their contracts are the laws.
ghost use Rattle.std.specs.Prelude.{◌≡◌, List};
ghost use Rattle.outside.specs.declared.name.Name.{Name};
ghost use Rattle.outside.specs.MailRoom.{names_of};
ghost use Rattle.peers.specs.Protocols.{Letter, first_names, firsts, stands_in};

/// Of a list of letters each first one with its name is kept: these have the names of all, each once, in order.
pub fn firsts_have_all_names()
    ensures names { (letters : List Letter) → names_of (firsts letters) ≡ first_names (names_of letters) }
    ensures all { (names : List Name) (n : Name) → stands_in (first_names names) n ≡ stands_in names n }
    ensures once { (names : List Name) → first_names (first_names names) ≡ first_names names }
{}
