//! What holds of every outcome, of words, and of calls that were broken off.
ghost use Rattle.std.specs.Prelude.{◌≡◌, ℕ, List, Option, Some};
ghost use Rattle.mail_store.specs.StoreState.{StoreState};
ghost use Rattle.mail_wire.specs.declared.outside.Fault.{Fault};
ghost use Rattle.session_core.specs.Acts.{Act, changes_in};
ghost use Rattle.session_core.specs.Around.{Around};
ghost use Rattle.session_core.specs.Doing.{Does};
ghost use Rattle.session_core.specs.Done.{IsDone, given_by};
ghost use Rattle.session_core.specs.Oracles.{Oracles};
ghost use Rattle.mail_command.specs.Begun.{HasFirstDone};
ghost use Rattle.mail_command.specs.Outcome.{Outcome};
ghost use Rattle.mail_command.specs.Protocols.{protocol_for};
ghost use Rattle.mail_command.specs.Words.{IsNoCommand, IsServeCommand};
ghost use Rattle.mail_command.specs.declared.roles.Role.{Role as RoleValue};
ghost use Rattle.mail_command.specs.declared.tasks.Task.{Task as TaskValue};

/// Octets come to one outcome of `downgrade` at most, and to one of `check`.
pub fn outcomes_are_one()
    ensures { (task : TaskValue) (octets given others : List ℕ) (status other : ℕ) → Outcome task octets status given → Outcome task octets other others
        → (status ≡ other) × (given ≡ others) }
{}

/// The words of `serve` are those of no command that `run` carries out.
pub fn serve_is_no_command()
    ensures { (words : List (List ℕ)) (role : RoleValue) (port connections : ℕ) → IsServeCommand words role port connections → IsNoCommand words }
{}

/// Where a fault or want of memory breaks off a session, a piece of its stream or a relay, a prefix of what was due was given, the store has
/// the first of the changes that were due, and the keeper opens with the records that it had and the first of the new ones. Where the keeper
/// failed the store says so. No session's beginning is broken off by the keeper.
pub fn the_first_is_done_of_what_is_broken_off()
    ensures session { (role : RoleValue) (oracles : Oracles) (old new : StoreState) (had has : Option (List ℕ)) (met : Fault) (acts : List (Act (protocol_for role).P)) (given : List ℕ)
        → IsDone ((protocol_for role).spelled oracles) old new had has (Some met) acts given
        → HasFirstDone (given_by ((protocol_for role).spelled oracles) acts) (changes_in acts) old new had has met given }
    ensures relay { (old new : StoreState) (had has : Option (List ℕ)) (met : Fault) (acts : List (Act (List ℕ))) (given : List ℕ)
        → IsDone (λ octets. octets) old new had has (Some met) acts given → HasFirstDone (given_by (λ octets. octets) acts) (changes_in acts) old new had has met given }
    ensures begins { (role : RoleValue) (oracles : Oracles) (before now : Around)
        → ¬ Does ((protocol_for role).spelled oracles) before now (Some Fault.Keeper) ((protocol_for role).opening before.desk.store) }
{}
