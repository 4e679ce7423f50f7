// The commands, and how each is called.
use crate::bytes::OnBytes;
use crate::edits::Edit;
use crate::looks::Look;
use crate::paths::OnPaths;
use std::fmt;

// What a line asks: about bytes, about paths, about the script's table or for a change of it, or for one of the rest.
#[derive(Clone, Copy, PartialEq, Eq)]
pub enum Command {
    Bytes(OnBytes),
    Path(OnPaths),
    Look(Look),
    Edit(Edit),
    Run,
    Run32,
    WriteTable,
    Image,
    Load,
    Help,
}

// Each command's name, the words that it wants behind it, and what it is; in the order in which `help` names them.
static COMMANDS: [(&str, &str, Command); 43] = [
    ("pkg", "HEX", Command::Bytes(OnBytes::Pkg)),
    ("raw", "HEX", Command::Bytes(OnBytes::Raw)),
    ("fit", "LENGTH RAW", Command::Bytes(OnBytes::Fit)),
    ("still", "END LENGTH", Command::Bytes(OnBytes::Still)),
    ("char", "HEX", Command::Bytes(OnBytes::Char)),
    ("name", "HEX", Command::Bytes(OnBytes::Name)),
    ("text", "TEXT", Command::Path(OnPaths::Text)),
    ("write", "PATH SIZE", Command::Path(OnPaths::Write)),
    ("root", "", Command::Path(OnPaths::Root)),
    ("seg", "HEX", Command::Bytes(OnBytes::Seg)),
    (
        "components",
        "COUNT HEX",
        Command::Path(OnPaths::Components),
    ),
    ("normal", "PATH", Command::Path(OnPaths::Normal)),
    ("parent", "PATH", Command::Path(OnPaths::Parent)),
    ("kind", "PATH", Command::Path(OnPaths::Kind)),
    ("resolve", "PATH SCOPE", Command::Path(OnPaths::Resolve)),
    ("new", "", Command::Edit(Edit::New)),
    ("well-formed", "", Command::Look(Look::WellFormed)),
    ("digest", "", Command::Look(Look::Digest)),
    ("poke", "INDEX NUMBER", Command::Edit(Edit::Poke)),
    ("level", "PATH TYPE", Command::Edit(Edit::Level)),
    ("remove", "PATH", Command::Edit(Edit::Remove)),
    ("value", "PATH NUMBER", Command::Edit(Edit::Value)),
    (
        "value-at",
        "PATH SCOPE NUMBER",
        Command::Edit(Edit::ValueAt),
    ),
    ("alias", "PATH SCOPE TARGET", Command::Edit(Edit::Alias)),
    ("get", "HANDLE", Command::Look(Look::Get)),
    ("set", "HANDLE NUMBER", Command::Edit(Edit::Set)),
    ("handle", "PATH", Command::Look(Look::Handle)),
    ("object", "PATH", Command::Look(Look::Object)),
    ("set-object", "PATH NUMBER", Command::Edit(Edit::SetObject)),
    ("search", "PATH SCOPE", Command::Look(Look::Search)),
    (
        "search-level",
        "PATH SCOPE",
        Command::Look(Look::SearchLevel),
    ),
    ("levels", "PATH ROOM", Command::Look(Look::Levels)),
    ("tree", "", Command::Look(Look::Tree)),
    ("image", "ROOM", Command::Image),
    ("load", "HEX", Command::Load),
    ("check", "HEX", Command::Bytes(OnBytes::Check)),
    ("run", "BUDGET HEX [CELL=NUMBER ..]", Command::Run),
    ("run32", "BUDGET HEX [CELL=NUMBER ..]", Command::Run32),
    ("width", "REV", Command::Bytes(OnBytes::Width)),
    ("ssdt-width", "REV REV", Command::Bytes(OnBytes::SsdtWidth)),
    ("table", "HEX", Command::Bytes(OnBytes::Table)),
    ("write-table", "SIG REV REST BODY ROOM", Command::WriteTable),
    ("help", "[COMMAND]", Command::Help),
];

impl Command {
    pub fn named(word: &[u8]) -> Option<Command> {
        let row = COMMANDS
            .iter()
            .find(|(name, _, _)| name.as_bytes() == word)?;
        Some(row.2)
    }
}

// Its name, and the words that it wants.
impl fmt::Display for Command {
    fn fmt<W: fmt::Write>(&self, f: &mut fmt::Formatter<W>) -> fmt::Result {
        for (name, wants, command) in &COMMANDS {
            if command == self {
                f.write_str(name)?;
                if !wants.is_empty() {
                    write!(f, " {wants}")?;
                }
            }
        }
        Ok(())
    }
}

// The names of all commands.
#[derive(Clone, Copy)]
pub struct Names;

impl fmt::Display for Names {
    fn fmt<W: fmt::Write>(&self, f: &mut fmt::Formatter<W>) -> fmt::Result {
        for (name, _wants, _command) in &COMMANDS {
            write!(f, " {name}")?;
        }
        Ok(())
    }
}
