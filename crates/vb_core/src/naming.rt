// Which page it is that was met damaged.
ghost use Rattle.std.specs.Prelude.{◌≡◌, ℕ, false, true, IfSome, IsNone, Option, Err};
ghost use Rattle.vb_active.specs.Needs.{IsErrorOn};
ghost use Rattle.vb_active.specs.Views.{IsOut};
ghost use Rattle.vb_disk.specs.States.{DiskState};
ghost use Rattle.vb_folder.specs.Events.{page_fault};
ghost use Rattle.vb_tree.specs.declared.operation.Op.{Op};
ghost use Rattle.vb_core.specs.Folders.{folder_fault};
ghost use Rattle.vb_core.specs.Names.{IsPageOut, IsPathOfPages, NamesPage};

use crate::FolderError;
use vb_active::Active;
use vb_block::Ref;
use vb_local::nodes_have_a_tree;
use vb_pages::PageError;
use vb_path::Path;

/// The error of an operation on a live view, where it is damage with the path and the page.
pub(crate) fn named_error(live: &Active, path: Option<Path>, error: PageError) -> FolderError
    requires { (told : Option DiskState) × (op : Op) × IsPathOfPages op path × IsErrorOn told live.now op error }
    ensures fault { folder_fault result ≡ page_fault error }
    ensures names { (told : Option DiskState) (op : Op) → IsPathOfPages op path → IsErrorOn told live.now op error
        → NamesPage told live.now op (Err result) }
{
    match error {
        PageError::Damaged { place, kept, found } => {
            let Some(path) = path else { unreachable!() };
            let reference = Ref {
                place,
                digest: kept,
            };
            FolderError::Damaged {
                page: page_out(live, &path, reference),
                path,
                place,
                kept,
                found,
            }
        }
        PageError::DiskFault => FolderError::DiskFault,
        PageError::Memory => FolderError::Memory,
    }
}

// The page of the file at a path that isn't in memory and has this reference. There has to be one.
fn page_out(live: &Active, path: &Path, reference: Ref) -> u32
    requires { (page : ℕ) × IsPageOut live.now path.now page reference.place reference.digest }
    ensures { IsPageOut live.now path.now result reference.place reference.digest }
{
    let index = live.index();
    let _count = index.count();
    nodes_have_a_tree();
    let Ok(slot) = index.walk(path) else {
        unreachable!()
    };
    let Some(page) = find_out(live, slot, reference) else {
        unreachable!()
    };
    page
}

// The first page of a slot that isn't in memory and has this reference, and none where there is none.
fn find_out(live: &Active, slot: u32, reference: Ref) -> Option<u32>
    ensures found { IfSome result (λ page. IsOut live.now slot page reference) }
    ensures none { IsNone result → (page : ℕ) → IsOut live.now slot page reference → ⊥ }
{
    let index = live.index();
    let _count = index.count();
    let refs = index.refs(slot)?;
    let table = live.pages();
    for page in 0..refs.len() as u32 {
        if is_same(refs.get(page as usize), &reference) && table.get(slot, page).is_none() {
            return Some(page);
        }
    }
    None
}

// Whether two references are one.
fn is_same(one: &Ref, other: &Ref) -> bool
    ensures same { result ≡ true → one.now ≡ other.now }
    ensures other { result ≡ false → one.now ≡ other.now → ⊥ }
{
    one.place == other.place && one.digest == other.digest
}
