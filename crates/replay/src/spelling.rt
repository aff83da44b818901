// The grammar and the spelling of commands are one.
ghost use Rattle.std.specs.Prelude.{◌≡◌, List, ℕ, Some};
ghost use Rattle.replay.specs.declared.grammar.Command.{Command as TheCommand};
ghost use Rattle.replay.specs.Grammar.{command_of};
ghost use Rattle.replay.specs.Spelling.{IsSpelledBy};

/// A law: a line spells a command exactly where it is the command's one spelling: its keyword and its numbers in decimal,
/// one space between two, at most 1024 bytes, each number at most 2^40 - 1.
pub fn lines_spell_commands()
    ensures spelled { (line : List ℕ) (command : TheCommand) → command_of line ≡ Some command
        → IsSpelledBy line command }
    ensures read { (line : List ℕ) (command : TheCommand) → IsSpelledBy line command
        → command_of line ≡ Some command }
{}
