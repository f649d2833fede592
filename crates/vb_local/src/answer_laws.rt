// Laws of the answers that the steps of a commit will still give, each the contract of a function that does nothing.
ghost use Rattle.std.specs.Prelude.{◌≡◌, [], false, true};
ghost use Rattle.vb_local.specs.Answers.{answers_left, is_committed_in, EndAtRest};
ghost use Rattle.vb_local.specs.Phases.{AreTied};
ghost use Rattle.vb_local.specs.States.{is_on, LocalState};

/// Answers are left exactly while a commit is on, and they bring it to its rest. It does nothing.
pub fn answers_are_left_while_a_commit_is_on()
    ensures none { (s : LocalState) → is_on s.phase ≡ false → answers_left s ≡ [] }
    ensures only { (s : LocalState) → AreTied s → answers_left s ≡ [] → is_on s.phase ≡ false }
    ensures rest { (s : LocalState) → AreTied s → is_on s.phase ≡ true → EndAtRest (is_committed_in s.phase) (answers_left s) }
{}
