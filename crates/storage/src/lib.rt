// The least storage for a source: the frame reader reads it, and nothing is stored. Document 02, Req 08.
#![tactic(auto)]

ghost use Rattle.std.specs.Prelude.{◌≡◌, length};
ghost use Rattle.least_storage.specs.Storage.{storage, Stores};

use least_storage::Needs;
use reader::{Frames, Limits};
use token::Refusal;

// The frame reader with tables that have no place for a row or a record: it counts both, and no source has more than it has bytes.
fn measure(s: &[u8], work: &mut [u32]) -> Result<Needs, Refusal>
    ensures { result ≡ storage s.now (length work.old) }
{
    loader::test_source(s, work.len())?;
    let mut rows = [0u32; 0];
    let mut records = [0u32; 0];
    let limits = Limits {
        rows: s.len(),
        declarations: s.len(),
    };
    let size = reader::measure_within::<Frames>(s, &mut rows, &mut records, work, limits)?;
    Ok(Needs {
        rows: size.rows,
        declarations: size.declarations,
        frames: size.frames,
    })
}

// The rows, declarations and open frames that a source needs, or its refusal. The work area is 0 afterwards.
pub fn storage(s: &[u8], work: &mut [u32]) -> Result<Needs, Refusal>
    ensures { Stores s.now work.old result work.new }
{
    let answer = measure(s, work);
    tables::clear_from(work, 0);
    answer
}
