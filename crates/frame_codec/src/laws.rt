//! What holds of all bytes.
ghost use Rattle.std.specs.Prelude.{◌≡◌, ℕ, List, ◌++◌, Some, Err};
ghost use Rattle.seata_types.specs.declared.statements.Stmt.{Stmt as Statement};
ghost use Rattle.sql_reader.specs.Readable.{IsReadable};
ghost use Rattle.sql_reader.specs.Canonical.{canonical_text};
ghost use Rattle.byte_fields.specs.Exactness.{AreBytes};
ghost use Rattle.frame_codec.specs.declared.framed.Framed.{Framed as Found};
ghost use Rattle.frame_codec.specs.declared.errors.FrameError.{FrameError as Fault};
ghost use Rattle.frame_codec.specs.Works.{stmt_of};
ghost use Rattle.frame_codec.specs.Frames.{decoded};
ghost use Rattle.frame_codec.specs.Feeding.{FramesIn, IsLasting};

/// A text stands for a statement exactly where it is this statement's canonical text.
pub fn statements_are_their_canonical_texts()
    ensures read { (text : List ℕ) (s : Statement) → stmt_of text ≡ Some s → IsReadable s × (canonical_text s ≡ text) }
    ensures back { (s : Statement) → IsReadable s → stmt_of (canonical_text s) ≡ Some s }
{}

/// However bytes are cut, the frames of the pieces are those of the whole.
pub fn frames_of_pieces_join()
    ensures more { (from : ℕ) (fed more : List ℕ) (given : List Found) (at : ℕ) (rest : List ℕ) → AreBytes fed →
        FramesIn from fed given at rest → FramesIn from (fed ++ more) given at (rest ++ more) }
    ensures join { (from : ℕ) (fed : List ℕ) (given : List Found) (at : ℕ) (bytes : List ℕ) (frames : List Found) (end : ℕ) (rest : List ℕ) →
        FramesIn from fed given at bytes → FramesIn at bytes frames end rest → FramesIn from fed (given ++ frames) end rest }
    ensures bad { (bytes more : List ℕ) (why : Fault) → AreBytes bytes → IsLasting why → decoded bytes ≡ Err why → decoded (bytes ++ more) ≡ Err why }
{}
