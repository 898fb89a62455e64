// What holds of every command and every list of numbers: written out, it is read back as itself.
ghost use Rattle.commands.specs.Commands.{ReadsBack, ListsReadBack};

pub fn reads_back()
    ensures { ReadsBack }
{}

pub fn lists_read_back()
    ensures { ListsReadBack }
{}
