//! Laws of the runs of scripts of one editor. Each function does nothing: its contract is the law.
ghost use Rattle.serial_run.specs.Phased.{OnlySerial, ScriptIsPhased};
ghost use Rattle.serial_run.specs.Stopped.{FullIsLong, StopIsPhased};

/// The journal that an orderly script of editor 1 makes, where no call is answered `Full`, falls into
/// the phases of the script: in each the entries of the editor in the order of its lines, and then one
/// drain with its report.
pub fn script_is_phased()
    ensures { ScriptIsPhased }
{}

/// And it is the only one: a legal journal that falls into the phases of the script is the journal that
/// the script makes. So that journal is said by the relations of lines, drains and replies alone.
pub fn only_serial()
    ensures { OnlySerial }
{}

/// Where such a script was stopped, before a call that would be answered `Full`, for want of memory or
/// by a failing sink, its journal falls into some whole phases and a front of the next: a front of the
/// editor's lines, or all of them and a front of the drain. Then the claim that was held is given back
/// by its own actor, and no claim is out.
pub fn stop_is_phased()
    ensures { StopIsPhased }
{}

/// Where a script comes to a call that would be answered `Full`, its journal has as many entries as the
/// limit of steps but one, or more.
pub fn full_is_long()
    ensures { FullIsLong }
{}
