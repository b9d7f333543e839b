ghost use Rattle.command_line.specs.Words.{HasOneReading};

/// Words are one command at most. It does nothing when it runs.
pub fn one_command()
    ensures { HasOneReading }
{}
