// The history of a shelf: what it answers and holds after any list of calls, as definitions, and the laws over its runs.
// Each function here promises one law; calling it does nothing.
#![tactic(auto)]

ghost use Rattle.history.specs.Alters.{CheckAltersHost, RefusedAltersNothing};
ghost use Rattle.history.specs.Hosts.{OrdersAgree};
ghost use Rattle.history.specs.Kept.{PoweredKept, PresenceKept, RecordsFine, RecordsKept, SettingsKept, StatesKept};
ghost use Rattle.history.specs.ReadBack.{PagesReadBack};
ghost use Rattle.history.specs.Worked.{WorkedValues};

// A refused call alters nothing.
pub fn refused_alters_nothing()
    ensures { RefusedAltersNothing }
{}

// CHECK CONDITION sends no bytes and alters nothing but the sense and the pending attention of the command's host.
pub fn check_alters_host()
    ensures { CheckAltersHost }
{}

// The worked values.
pub fn worked_values()
    ensures { WorkedValues }
{}

// A shelf is powered exactly from its first accepted power-on on.
pub fn powered_kept()
    ensures { PoweredKept }
{}

// The inputs are those of the last accepted frame, and a drive is present exactly if the physical state says inserted.
pub fn presence_kept()
    ensures { PresenceKept }
{}

// The record of a slot is the last accepted triple with a flag or its power-on record, whichever came last, with Unconfigured besides if a drive was put in since.
pub fn records_kept()
    ensures { RecordsKept }
{}

// No record ever has both rebuild flags, or a reserved bit.
pub fn records_fine()
    ensures { RecordsFine }
{}

// Speeds, supplies, the alarm, the lock and identify are what the last accepted entry that sets them set.
pub fn settings_kept()
    ensures { SettingsKept }
{}

// The physical state of a slot is what its events since the last accepted power-on make of its power-on state.
pub fn states_kept()
    ensures { StatesKept }
{}

// From the uncut pages of any shelf that a list of calls leads to, the reader gets the very parts of that shelf, at their places.
pub fn pages_read_back()
    ensures { PagesReadBack }
{}

// Hosts that name different parts get the same results in any order of their commands.
pub fn orders_agree()
    ensures { OrdersAgree }
{}
