// Where a name stands.
ghost use Rattle.std.specs.Prelude.{◌≡◌};
ghost use Rattle.rows.specs.Pages.{found};

use crate::page::Page;

// The place of the first page with the name.
pub fn place<N>(pages: &[Page<N>], name: u32) -> Option<usize>
    ensures { result ≡ found name pages.now }
{
    pages.iter().position(|p| p.name == name)
}
