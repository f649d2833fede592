// Laws of commits on their way, each the contract of a function that does nothing.
ghost use Rattle.std.specs.Prelude.{◌≡◌, ◌≢◌, ◌<◌, ◌≤◌, [], ℕ, length, All, List};
ghost use Rattle.vb_commit.specs.Known.{node_block, IsCommittingFor, IsEvery, IsNoFirst, OthersStand, StandsFor};
ghost use Rattle.vb_commit.specs.Ways.{first_data, next_of, source_call, IsWay, WayState};
ghost use Rattle.vb_disk.specs.Cells.{candidates};
ghost use Rattle.vb_disk.specs.Crashes.{damaged};
ghost use Rattle.vb_disk.specs.States.{written, DiskState};
ghost use Rattle.vb_head.specs.declared.head.Head.{Head};
ghost use Rattle.vb_journal.specs.declared.commit_stage.Stage.TheVariants.{Rested};
ghost use Rattle.vb_journal.specs.Plans.{closed_head};
ghost use Rattle.vb_journal.specs.Progress.{new_images, new_journal, IsAtRest};
ghost use Rattle.vb_plan.specs.declared.plan_page.PlanPage.{PlanPage};
ghost use Rattle.vb_inode.specs.declared.next_view.NextNode.{NextNode};
ghost use Rattle.vb_plan.specs.Conditions.{CanPlan, CanSeal};
ghost use Rattle.vb_plan.specs.Following.{CanFollow};
ghost use Rattle.vb_plan.specs.Laws.{place_of, slots_next};
ghost use Rattle.vb_plan.specs.Plans.{plan_of, Basis};
ghost use Rattle.vb_plan.specs.Seen.{basis_of};
ghost use Rattle.vb_store.specs.Views.{HasNoneBegun, IsView, ViewState};
ghost use Rattle.vb_steps.specs.Runs.{Event, IsRun};

/// Each run of a commit from a disk that is known on its way, whichever of its calls fail and whatever these leave,
/// ends on a disk that is known on the way that it came to. It does nothing.
pub fn each_run_of_a_commit_stays_known()
    ensures { (source : ℕ → ℕ → List ℕ) (homes journal : ℕ → List ℕ) (plan : List PlanPage)
        (s last : WayState) (d end : DiskState) (events : List Event) → IsWay s → IsCommittingFor source homes journal plan s d → IsRun (source_call source) (λ t got. next_of t) s d events last end
        → IsWay last × IsCommittingFor source homes journal plan last end }
{}

/// What is known of a disk is known of the candidates of its heads, homes and journal, and of those of the planned
/// places. So damage at any moment leaves it, and so does a write to another place of data. It does nothing.
pub fn damage_and_other_data_leave_a_commit()
    ensures damage { (head : Head) (plan : List PlanPage) (d : DiskState) (place : ℕ) (page : List ℕ)
        → StandsFor head plan d (damaged d place page) }
    ensures others { (head : Head) (plan : List PlanPage) (d : DiskState) (place : ℕ) (page : List ℕ) → first_data head ≤ place
        → All (λ p. place_of p ≢ place) plan → StandsFor head plan d (written d place page) }
    ensures known { (source : ℕ → ℕ → List ℕ) (homes journal : ℕ → List ℕ) (plan : List PlanPage) (s : WayState) (old new : DiskState)
        → IsWay s → StandsFor s.head plan old new → IsCommittingFor source homes journal plan s old
        → IsCommittingFor source homes journal plan s new }
{}

/// A commit that rests leaves a store at rest, with its closed head and the new images, and every candidate of each
/// planned place is the page that was planned there. It does nothing.
pub fn a_rested_commit_leaves_its_pages()
    ensures { (source : ℕ → ℕ → List ℕ) (homes journal : ℕ → List ℕ) (plan : List PlanPage) (s : WayState) (d : DiskState)
        → s.pages ≡ [] → s.stage ≡ Rested → IsCommittingFor source homes journal plan s d
        → IsAtRest (closed_head s.head s.epoch) (new_images s.images homes) (new_journal s.images journal) d × All (IsEvery source d) plan }
{}

/// A place of data that isn't that of the page which is due holds one page alone after a step where it did before it,
/// as those of the committed view do. It does nothing.
pub fn other_pages_stay()
    ensures { (from : ℕ) (pages : List PlanPage) (d next : DiskState) (place : ℕ) (page : List ℕ) → OthersStand from pages d next
        → from ≤ place → IsNoFirst pages place → All (λ c. c ≡ page) (candidates (d.cells place))
        → All (λ c. c ≡ page) (candidates (next.cells place)) }
{}

/// The images of a plan over a view, put over the blocks of the committed nodes, are the blocks of the next ones: so
/// a store that rests after the commit is at rest with the blocks of the next nodes. It does nothing.
pub fn a_rested_commit_has_the_next_nodes()
    ensures blocks { (basis : Basis) (next : List NextNode) (slot : ℕ) → CanPlan basis next → CanSeal basis next
        → slot < length basis.nodes → new_images (plan_of basis next).images (node_block basis.nodes) slot ≡ node_block (slots_next basis next) slot }
    ensures rest { (v : ViewState) (next : List NextNode) (epoch : ℕ) (journal : ℕ → List ℕ) (d : DiskState)
        → IsView v → HasNoneBegun v → CanFollow v.index next
        → IsAtRest (closed_head v.head epoch) (new_images (plan_of (basis_of v.index v.space) next).images (node_block v.index.nodes)) journal d
        → IsAtRest (closed_head v.head epoch) (node_block (slots_next (basis_of v.index v.space) next)) journal d }
{}
