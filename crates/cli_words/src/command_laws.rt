//! Laws of the definitions. The functions do nothing: the contract of each is a law.
ghost use Rattle.std.specs.Prelude.{◌≡◌, ℕ, List, length};
ghost use Rattle.cli_words.specs.declared.command.BlockWords.{BlockWords};
ghost use Rattle.cli_words.specs.declared.command.Command.{Command};
ghost use Rattle.cli_words.specs.declared.command.Command.TheVariants.{Block};
ghost use Rattle.cli_words.specs.Stands.{Stands};

/// Words stand for one command at most.
pub fn one_command()
    ensures { (words : List (List ℕ)) (one other : Command)
        → Stands words one → Stands words other → one ≡ other }
{}

/// A block that words name has as many fields as flags that say which are kept.
pub fn block_has_flags()
    ensures { (words : List (List ℕ)) (block : BlockWords)
        → Stands words (Block block) → length block.avro_fields ≡ length block.projection }
{}
