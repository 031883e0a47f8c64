// A file held against its track's schema (answers 6 and 7) in one pass, by the tables. They are made once, here, for the track at hand. Each branch makes all
// three: with pool and ranges made once above the branches the compiler put this function into its caller, and 3 KB of tables then lay under every pass of the
// call (bench/stack shows it).
ghost use Rattle.std.specs.Prelude.{◌≡◌, List, ℕ, drop};
ghost use Rattle.markup.specs.NamesAndValues.Read.{read};
ghost use Rattle.markup.specs.Elements.{Tree, element, depth};
ghost use Rattle.schema.specs.CountedElements.{held_of};
ghost use Rattle.schema.specs.View.{view_shape, ok_shape};
ghost use Rattle.schemas.specs.Schemas.{schema_of};

use crate::tables::{POOL, RANGES, TABLE1, TABLE2};
use schema::file::ShapeFault;
use schema::table::Tables;

// The file whose root stands at a place, as a file of a track. The proof is where the tables are shown to be the schemas, each by one computed test.
pub fn held(track: u64, s: &[u8], root: usize) -> Result<usize, ShapeFault>
    ensures { ((tree : Tree) (m : List ℕ) → element depth (drop root s.now) ≡ read tree m → view_shape result ≡ held_of (schema_of track) tree) × ok_shape s.now result }
{
    if track == 1 {
        let table = TABLE1;
        let pool = POOL;
        let ranges = RANGES;
        let tables = Tables {
            table: &table,
            pool: &pool,
            ranges: &ranges,
        };
        tables.shape(s, root)
    } else {
        let table = TABLE2;
        let pool = POOL;
        let ranges = RANGES;
        let tables = Tables {
            table: &table,
            pool: &pool,
            ranges: &ranges,
        };
        tables.shape(s, root)
    }
}
