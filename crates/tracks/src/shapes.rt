// The shape of a file and the number of its events (answers 6 and 7): what its track's schema counts are the record's events.
ghost use Rattle.std.specs.Prelude.{◌≡◌, cond, List, eqb, ℕ, drop};
ghost use Rattle.markup.specs.NamesAndValues.Read.{read};
ghost use Rattle.markup.specs.Elements.{Tree, element, depth};
ghost use Rattle.schema.specs.Shape.{shape_of};
ghost use Rattle.schema.specs.CountedElements.{held_by, held_answer, is_faulty};
ghost use Rattle.schema.specs.View.{view_shape, ok_shape};
ghost use Rattle.schemas.specs.Schemas.{schema_of};
ghost use Rattle.tracks.specs.TooMany.{crowded_in};

use schema::file::ShapeFault;
use schemas::shapes::held;

// The file whose root stands at a place, as a file of a track.
pub fn shape_of(track: u64, s: &[u8], root: usize) -> Result<usize, ShapeFault>
    ensures { ((tree : Tree) (m : List ℕ) → element depth (drop root s.now) ≡ read tree m → (view_shape result ≡ held_by (shape_of (schema_of track) tree) (crowded_in track tree))
        × (held_answer (view_shape result) ≡ cond (is_faulty (shape_of (schema_of track) tree)) 6 (cond (eqb (crowded_in track tree) 0) 0 7))) × ok_shape s.now result }
{
    held(track, s, root)
}
