//! What the definitions promise, as a law.

ghost use Rattle.std.specs.Prelude.{◌≡◌, List, ℕ};
ghost use Rattle.node_commands.specs.Words.{Word};
ghost use Rattle.node_commands.specs.Outside.{Files};
ghost use Rattle.node_commands.specs.Answers.{Answer};
ghost use Rattle.node_commands.specs.Decided.{Decided};

/// Words, files and an input decide at most one answer.
pub fn answers_apart()
    ensures { (words : List Word) (files : Files) (input : List ℕ) (a b : Answer)
        → Decided words files input a → Decided words files input b → a ≡ b }
{}
