//! Laws of the definitions of a load. The functions do nothing.

ghost use Rattle.protobuf_parse_load.specs.Laws.{FilesComeOnce, HeldAreRead, ImportsComeFirst};
ghost use Rattle.protobuf_parse_load.specs.Laws.{InputsCome, LoadIsRun};
ghost use Rattle.protobuf_parse_load.specs.Laws.{PathsAreAskedOnce, RunIsFront};

/// Each input is told, or its file is loaded (`inputs`). Each import statement of a file that is
/// loaded is told at its place, or its file is loaded before (`imports`). No file is loaded twice
/// (`once`), and the resolver is asked for no path twice (`asked`).
pub fn loads_leave_nothing_out()
    ensures inputs { InputsCome }
    ensures imports { ImportsComeFirst }
    ensures once { FilesComeOnce }
    ensures asked { PathsAreAskedOnce }
{}

/// A step that tells that what an input's own path has was read names an input at a path of its
/// own, the read that asked the reader for that path, and the proto path of a file that is loaded.
pub fn held_inputs_are_read()
    ensures { HeldAreRead }
{}

/// A run is the front of a load: up to the first that ends it, its events are those of the load's
/// steps (`front`). Where a load tells nothing, all are (`whole`).
pub fn runs_are_fronts_of_loads()
    ensures front { RunIsFront }
    ensures whole { LoadIsRun }
{}
