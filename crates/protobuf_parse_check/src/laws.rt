//! Laws of the definitions of a check, beside those of a run. The functions do nothing.

ghost use Rattle.protobuf_parse_check.specs.Laws.{QuietDescriptorsAreRuns, QuietFilesAreRuns};
ghost use Rattle.protobuf_parse_check.specs.Laws.{QuietIsAccepted, QuietOrderIsRuns};
ghost use Rattle.protobuf_parse_check.specs.Laws.{QuietFilesAreWhole, QuietReadsAreRuns};
ghost use Rattle.protobuf_parse_check.specs.Laws.{AcceptedAreQuiet, QuietAnswersAreRuns};
ghost use Rattle.protobuf_parse_check.specs.Laws.{FirstFaultIsTold};
ghost use Rattle.protobuf_parse_run.specs.Run.{MayAnswer};

use protobuf_parse_run::{InputReader, ProtoPathResolver};

/// Where a check tells nothing, each file of it is what it is in the run: whole, sound, without
/// faults, and with the same descriptor (`files`), and the descriptors are those that the run
/// answers, in its order (`descriptors`). Where no step tells something, each file is held against
/// what it is as a whole (`whole`), the files come in the order of the run (`order`), and what was
/// read is what the run reads (`reads`).
pub fn quiet_checks_answer_as_runs()
    ensures whole { QuietFilesAreWhole }
    ensures files { QuietFilesAreRuns }
    ensures order { QuietOrderIsRuns }
    ensures reads { QuietReadsAreRuns }
    ensures descriptors { QuietDescriptorsAreRuns }
{}

/// A check tells nothing exactly where the run over the same inputs is accepted.
pub fn quiet_checks_are_accepted_runs()
    ensures { QuietIsAccepted }
{}

/// Where a check is done and tells nothing, a run that is answered the same is accepted, with the
/// descriptors of the check (`answers`); and where such a run is accepted, the check tells nothing
/// (`quiet`).
pub fn quiet_answers_are_of_runs<R: ProtoPathResolver, I: InputReader>(resolver: &R, reader: &I)
    ensures answers { QuietAnswersAreRuns
        (MayAnswer (R.may_answer resolver.now) (I.may_read reader.now)) }
    ensures quiet { AcceptedAreQuiet
        (MayAnswer (R.may_answer resolver.now) (I.may_read reader.now)) }
{}

/// The first that ends a run is told by the check: an import or an input that isn't followed as a
/// step that tells it, another file at an input's own path as a clash, and a fault in a file as a
/// fault of that file.
pub fn first_faults_are_told()
    ensures { FirstFaultIsTold }
{}
