//! The lines that are one call or one query, whatever they run on.
ghost use Rattle.std.specs.Prelude.{◌≡◌, ◌≢◌, ℕ, List, ◌∷◌, ◌++◌, Contains, MatchOption};
ghost use Rattle.papaya_run_lines.specs.Commands.{Parts, WritesBare, WritesCommand, keyed_word};
ghost use Rattle.papaya_run_lines.specs.declared.commands.Command.{Command};
ghost use Rattle.papaya_run_lines.specs.declared.commands.KeyedCommand.{KeyedCommand};

use crate::numbers::number_of;

/// The command of a line to the map.
#[derive(Clone, Copy)]
pub enum Command {
    /// Stores an entry.
    Insert(u64, u64),
    /// Looks a key up.
    Get(u64),
    /// Removes a key.
    Remove(u64),
    /// Adds 1 to the value of a key; 0 follows the greatest.
    Update(u64),
    /// Returns how many entries there are.
    Len,
    /// Returns how many slots the root table has.
    Slots,
    /// Removes all entries.
    Clear,
    /// Lists all entries.
    Walk,
}

/// Returns the text before the first space, and the text after it.
pub fn parted(text: &[u8]) -> Option<(&[u8], &[u8])>
    ensures { MatchOption result (¬ (Contains text.now 32)) (λ p. Parts text.now p.0.now p.1.now) }
{
    let place = text.iter().position(|byte| *byte == b' ')?;
    Some((&text[..place], &text[place + 1..]))
}

/// The name of a command that has a key.
enum KeyedCommand {
    Get,
    Insert,
    Remove,
    Update,
}

/// Returns the command of this name that has a key.
fn keyed_of(word: &[u8]) -> Option<KeyedCommand>
    ensures { MatchOption result ((name : KeyedCommand) → word.now ≢ keyed_word name)
        (λ name. word.now ≡ keyed_word name) }
{
    match word {
        b"g" => Some(KeyedCommand::Get),
        b"i" => Some(KeyedCommand::Insert),
        b"r" => Some(KeyedCommand::Remove),
        b"u" => Some(KeyedCommand::Update),
        _ => None,
    }
}

/// Returns the command that is one word.
fn bare_of(word: &[u8]) -> Option<Command>
    ensures { MatchOption result ((command : Command) → ¬ (WritesBare word.now command))
        (WritesBare word.now) }
{
    match word {
        b"len" => Some(Command::Len),
        b"slots" => Some(Command::Slots),
        b"clear" => Some(Command::Clear),
        b"walk" => Some(Command::Walk),
        _ => None,
    }
}

/// Returns the command of a line, or `None` if the line is of another form.
pub fn command_of(text: &[u8]) -> Option<Command>
    ensures { MatchOption result ((command : Command) → ¬ (WritesCommand text.now command))
        (WritesCommand text.now) }
{
    let Some((name, rest)) = parted(text) else {
        return bare_of(text);
    };
    match keyed_of(name)? {
        KeyedCommand::Get => Some(Command::Get(number_of(rest)?)),
        KeyedCommand::Remove => Some(Command::Remove(number_of(rest)?)),
        KeyedCommand::Update => Some(Command::Update(number_of(rest)?)),
        KeyedCommand::Insert => {
            let (key, value) = parted(rest)?;
            Some(Command::Insert(number_of(key)?, number_of(value)?))
        }
    }
}
