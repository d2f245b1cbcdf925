//! Whose a folder is and who may write there, from the folder itself up to the root. It computes on
//! owners and modes, and touches nothing. Begin with `judge`; the definitions are in
//! `specs/Ownership`.

ghost use Rattle.std.specs.Prelude.{◌≡◌, ◌↔◌, IsTrue, IsOk, IfErr, MatchOption};
ghost use Rattle.gnupg_home.specs.Ownership.{EachPasses, IsFirstBreach, HasOwner, HasMode, Passes, Breaks};

/// By these bits of its mode others than its owner may make, rename and remove what is in a folder,
/// or change a file (inode(7)).
const OTHERS_WRITE: u32 = 0o022;

/// By this bit of its mode only who owns what is in a folder renames and removes it (inode(7)).
const STICKY: u32 = 0o1000;

/// The number of root.
const ROOT: u32 = 0;

/// Who is told from others.
#[derive(Clone, Copy)]
pub struct Users {
    /// Whose process this is.
    pub user: u32,
    /// By which number the system shows each owner who isn't mapped, in a user namespace
    /// (user_namespaces(7)).
    pub unmapped: Option<u32>,
}

/// A file or a folder on the way up: its owner and its mode.
#[derive(Clone, Copy, Debug, PartialEq, Eq)]
pub struct Step {
    pub owner: u32,
    pub mode: u32,
}

/// What a step is.
#[derive(Clone, Copy, Debug)]
pub enum Part {
    /// A folder that is to be the user's own.
    Home,
    /// A file that is run.
    Program,
    /// A folder above.
    Above,
}

/// Which of the two rules a step breaks.
#[derive(Clone, Copy, Debug, PartialEq, Eq)]
pub enum Rule {
    /// It belongs to another.
    Owner,
    /// Others may write there.
    Mode,
}

/// Where a way fails: the steps below pass.
#[derive(Clone, Copy, Debug, PartialEq, Eq)]
pub struct Breach {
    /// The step, counted from what is judged up to the root: 0 is that itself.
    pub place: usize,
    pub step: Step,
    pub rule: Rule,
}

/// Judges a way by its steps, from what is judged up to the root. The folders above may be the
/// user's or root's, and have others write there where the sticky bit is set.
pub fn judge(users: Users, first: Part, steps: &[Step]) -> Result<(), Breach>
    ensures passes { IsOk result ↔ EachPasses users first steps.now }
    ensures fails { IfErr result (λ breach. IsFirstBreach users first steps.now breach) }
{
    let mut part = first;
    for (place, step) in steps.iter().enumerate() {
        if let Some(rule) = broken_rule(users, part, *step) {
            return Err(Breach {
                place,
                step: *step,
                rule,
            });
        }
        part = Part::Above;
    }
    Ok(())
}

/// Which rule the step breaks, if it does.
fn broken_rule(users: Users, part: Part, step: Step) -> Option<Rule>
    ensures { MatchOption result (Passes users part step) (λ rule. Breaks users part step rule) }
{
    if !has_owner(users, part, step) {
        Some(Rule::Owner)
    } else if !has_mode(part, step) {
        Some(Rule::Mode)
    } else {
        None
    }
}

fn has_owner(users: Users, part: Part, step: Step) -> bool
    ensures { IsTrue result ↔ HasOwner users part step }
{
    let is_users = step.owner == users.user;
    match part {
        Part::Home => is_users,
        Part::Program | Part::Above => {
            is_users || step.owner == ROOT || users.unmapped == Some(step.owner)
        }
    }
}

fn has_mode(part: Part, step: Step) -> bool
    ensures { IsTrue result ↔ HasMode part step }
{
    let is_closed = step.mode & OTHERS_WRITE == 0;
    match part {
        Part::Home | Part::Program => is_closed,
        Part::Above => is_closed || step.mode & STICKY == STICKY,
    }
}
