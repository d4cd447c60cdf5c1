//! Laws of the definitions. The functions do nothing: the contract of each is a law.
ghost use Rattle.std.specs.Prelude.{◌≡◌};
ghost use Rattle.arrow_core.specs.declared.error.Error.{Error};
ghost use Rattle.cli_words.specs.declared.command.Command.{Command};
ghost use Rattle.avro_container.specs.Changes.{Change};
ghost use Rattle.avrocat_commands.specs.Commands.{CanBeDone, Due};

/// At most one error is due to a command and its source.
pub fn one_error_is_due()
    ensures { (command : Command) (source : Change) (one other : Error)
        → Due command source one → Due command source other → one ≡ other }
{}

/// No error is due where the command can be done.
pub fn no_error_is_due_to_what_can_be_done()
    ensures { (command : Command) (source : Change) (e : Error)
        → CanBeDone command source → Due command source e → ⊥ }
{}
