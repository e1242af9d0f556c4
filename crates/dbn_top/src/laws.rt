//! Laws of calls, as contracts of functions that do nothing.

ghost use Rattle.std.specs.Prelude.{◌≡◌, ◌≢◌, ◌⊎◌, ◌++◌, ℕ, List, take};
ghost use Rattle.dbn_model.specs.Causes.{Rose};
ghost use Rattle.dbn_model.specs.Lines.{Line};
ghost use Rattle.dbn_model.specs.Runs.{state_after};
ghost use Rattle.dbn_value.specs.declared.member.Member.{Member};
ghost use Rattle.dbn_store.specs.States.{Situation, RunState};
ghost use Rattle.dbn_engine.specs.Steps.{Terms, step};
ghost use Rattle.dbn_top.specs.Calls.{Call, Given};
ghost use Rattle.dbn_top.specs.Complete.{IsInOrder, NoneRose};
ghost use Rattle.dbn_top.specs.Crashes.{StandsFront, IsFrontOfGroups};
ghost use Rattle.dbn_top.specs.Due.{declared, uses_of};
ghost use Rattle.dbn_top.specs.Endings.{Ends, Touches, IsReadWhole};
ghost use Rattle.dbn_top.specs.Groups.{groups_of, AllFire};
ghost use Rattle.dbn_top.specs.declared.status.Status.{Status};

use crate::status::Status;

/// A call in which no source, no sink and no disk failed ends as it is declared to end, or for want of memory.
pub fn calls_without_a_fault_end_as_declared()
    ensures { (ended : Status) (call : Call) (given : Given) → Ends ended call given → Touches (uses_of call.verb) ended call
        → (Rose call.net.faults call.net.faults_after → ⊥) → (Rose call.commands.faults call.commands.faults_after → ⊥) → (Rose call.out.faults call.out.faults_after → ⊥)
        → ended ≢ Status.DiskFault → (ended ≡ (declared call.limits call.verb given).status) ⊎ (ended ≡ Status.Memory) }
{}

/// A call whose words name a verb, whose input is in order and in which no count of faults rose ends with `Done` and has read all
/// input of the verb to its end, or it ends for want of memory.
pub fn calls_in_order_are_done()
    ensures { (ended : Status) (call : Call) (given : Given) (a a_after b b_after : ℕ) → Ends ended call given → Touches (uses_of call.verb) ended call
        → (ended ≡ Status.DiskFault → Rose a a_after ⊎ Rose b b_after) → NoneRose call a a_after b b_after → IsInOrder call.limits call.verb given
        → ((ended ≡ Status.Done) × IsReadWhole (uses_of call.verb) call) ⊎ (ended ≡ Status.Memory) }
{}

/// A run leaves what its groups leave: they fire one after the other, each with all its members.
pub fn a_run_fires_its_groups()
    ensures { (terms : Terms) (r : RunState) (lines : List Line) → AllFire r.now (groups_of terms r lines) (state_after (step terms) r lines).now }
{}

/// What groups leave is one situation.
pub fn groups_fire_in_one_way()
    ensures { (s x y : Situation) (groups : List (List Member)) → AllFire s groups x → AllFire s groups y → x ≡ y }
{}

/// A crash leaves all members of a group or none: files that a run leaves stand for what was found at opening, followed by a
/// front of its groups that holds every acknowledged one.
pub fn a_crash_leaves_a_front_of_the_groups()
    ensures { (ended : Status) (terms : Terms) (r : RunState) (lines : List Line) (written x y : List ℕ) → StandsFront ended terms r lines written x y → IsFrontOfGroups terms r lines written x y }
{}
