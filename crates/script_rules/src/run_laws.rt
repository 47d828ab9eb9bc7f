//! Laws of the runs of scripts. Each function does nothing: its contract is the law.
ghost use Rattle.script_rules.specs.RunLaws.{DrainEnds, DrainIsDone, OutputIsTold, SerialIsLegal, SyncDrainsFile};

/// After a legal history in which no claim is out, the drain at the end of a phase is the only legal
/// one, where the limit of steps has room for it.
pub fn drain_is_done()
    ensures { DrainIsDone }
{}

/// A script of one `sync` makes the drain of the file, and its output is the report of the file's
/// model as revision 0.
pub fn sync_drains_file()
    ensures { SyncDrainsFile }
{}

/// The history that the phases of a script make is legal.
pub fn serial_is_legal()
    ensures { SerialIsLegal }
{}

/// After a legal history in which no claim is out, the drain at the end of a phase ends with the
/// report, or before a call that would be answered `Full`.
pub fn drain_ends()
    ensures { DrainEnds }
{}

/// The output of a legal history with the lines of one editor is what is told of it entry by entry.
pub fn output_is_told()
    ensures { OutputIsTold }
{}
