// The commands, and the word that names each.

#[derive(Clone, Copy, Debug, PartialEq, Eq)]
pub(crate) enum Command {
    Check,
    Multiply,
    Square,
    Trace,
    Search,
    Build,
    Show,
    List,
    Verify,
    Why,
    Matrices,
    ReadMatrices,
    Times,
    Inverse,
    Quotient,
    Normal,
    Polynomial,
    Help,
    Version,
}

impl Command {
    // The command that a word names.
    pub(crate) fn named(word: &[u8]) -> Option<Command> {
        let command = match word {
            b"check" => Command::Check,
            b"multiply" => Command::Multiply,
            b"square" => Command::Square,
            b"trace" => Command::Trace,
            b"search" => Command::Search,
            b"build" => Command::Build,
            b"show" => Command::Show,
            b"list" => Command::List,
            b"verify" => Command::Verify,
            b"why" => Command::Why,
            b"matrices" => Command::Matrices,
            b"read-matrices" => Command::ReadMatrices,
            b"times" => Command::Times,
            b"inverse" => Command::Inverse,
            b"quotient" => Command::Quotient,
            b"normal" => Command::Normal,
            b"polynomial" => Command::Polynomial,
            b"help" => Command::Help,
            b"version" => Command::Version,
            _ => return None,
        };
        Some(command)
    }

    // Whether the command reads what --from names. A page is printed whatever else is given.
    pub(crate) fn takes_from(self) -> bool {
        matches!(
            self,
            Command::Normal
                | Command::Polynomial
                | Command::ReadMatrices
                | Command::Help
                | Command::Version
        )
    }
}
