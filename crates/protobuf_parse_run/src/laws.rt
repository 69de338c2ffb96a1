//! Laws of the definitions of a run. The functions do nothing.

ghost use Rattle.protobuf_parse_run.specs.Order.{AcceptedAreWalked, AllReachedCome};
ghost use Rattle.protobuf_parse_run.specs.Order.{ImportsComeFirst, NoneComesTwice};
ghost use Rattle.protobuf_parse_run.specs.Order.{OrderIsHandedOut, ReachedComeToo};
ghost use Rattle.protobuf_parse_run.specs.Stability.{TreesAreOfTexts, StandsOnItsReach, OrderStays};
ghost use Rattle.protobuf_parse_run.specs.Stability.{AcceptedDeclareOnce, DescriptorsStay};
ghost use Rattle.protobuf_parse_run.specs.Stability.{ListsAreThere};
ghost use Rattle.protobuf_parse_run.specs.StandingBytes.{BytesStand, NoOthersStand, OptionsStand};
ghost use Rattle.protobuf_parse_run.specs.StandingBytes.{SetsStandOnce};
ghost use Rattle.protobuf_parse_run.specs.TypeNames.{NamesAreReached};
ghost use Rattle.protobuf_parse_run.specs.Walks.{SeenAreReached};

/// The files of a run in their order (`order`): each that an input reaches, once, and after all
/// that it imports. No path comes twice (`distinct`). Where no walk of an import tree breaks off, at
/// a cycle, a chain that is too long or a file without a tree, just those come that the path of an
/// input reaches (`reached`), with each all that it reaches (`closed`), and each after all that its
/// file imports (`after_imports`). So it is in every accepted run (`accepted`). The descriptors of
/// such a run bear the names of these paths, in order; what each of these files becomes is among
/// them, and so are all descriptors by which custom options are read back (`descriptors`).
pub fn files_come_once()
    ensures distinct { NoneComesTwice }
    ensures reached { AllReachedCome }
    ensures closed { ReachedComeToo }
    ensures after_imports { ImportsComeFirst }
    ensures accepted { AcceptedAreWalked }
    ensures descriptors { OrderIsHandedOut }
{}

/// What stays where other texts are read. A path that has the same text has the same tree
/// (`texts`), and of the files that each file reaches and sees there always are lists (`lists`).
/// Where two runs agree on the files that a file reaches, the same faults stand in it, in whatever
/// order these files are listed; and it becomes the same, where they declare no full name twice
/// (`reach`), as those of every accepted run (`once`). Where they agree on all files of an accepted
/// run, its order is a beginning of the order of every list of inputs that begins with the run's
/// inputs (`order`), and its descriptors are the first of such a run that is accepted too
/// (`descriptors`): so further inputs whose reads agree only append.
pub fn runs_are_stable()
    ensures texts { TreesAreOfTexts }
    ensures lists { ListsAreThere }
    ensures reach { StandsOnItsReach }
    ensures once { AcceptedDeclareOnce }
    ensures order { OrderStays }
    ensures descriptors { DescriptorsStay }
{}

/// A file reaches each file that it sees. So in an accepted run each name of a type in the
/// descriptor of a file is the full name of a message or an enum that a file declares which it
/// reaches, or of a message behind one of its own maps and groups
/// ([`types_are_declared`](protobuf_parse_elaboration::types_are_declared) says so of the files
/// that it sees).
pub fn seen_files_are_reached()
    ensures reached { SeenAreReached }
    ensures names { NamesAreReached }
{}

/// The bytes of the custom options of each construct stand in the descriptor of its file, in the
/// field `custom` of an options message, which is told by its kind of construct and that
/// construct's full name. For each set of options that has a statement, the options message of its
/// construct holds its bytes (`stand`). Each options message holds no bytes, or those of such a set
/// of its construct (`others`). There is just one for each such set; any others are of messages and
/// hold no bytes, as behind maps (`once`). And where a file becomes the same by two ways to write
/// custom options, each of its sets that has a statement becomes the same bytes by both (`told`).
/// What `run_inputs` says of the descriptors that it hands out (`OptionsAreReadable`) follows from
/// these. That a descriptor depends on no other bytes of custom options is the law
/// [`custom_options_are_of_sets`](protobuf_parse_elaboration::custom_options_are_of_sets).
pub fn custom_bytes_stand()
    ensures stand { OptionsStand }
    ensures others { NoOthersStand }
    ensures once { SetsStandOnce }
    ensures told { BytesStand }
{}
