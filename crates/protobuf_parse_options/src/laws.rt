//! Laws of the definitions. The functions do nothing.

ghost use Rattle.protobuf_parse_model.specs.Descriptors.{FieldDescriptor};
ghost use Rattle.protobuf_parse_model.specs.Lookup.{MeansTheLongest, MeansNothing, MeansItself};
ghost use Rattle.protobuf_parse_options.specs.DescriptorsByPath.{OrderMakesNoDifference};
ghost use Rattle.protobuf_parse_options.specs.MoreFiles.{LookupsKeepMeaning, MoreFilesKeepMeaning};
ghost use Rattle.protobuf_parse_options.specs.OptionBytes.{OptionBytesSpell};
ghost use Rattle.protobuf_parse_options.specs.OptionDepth.{NeverTooDeep, TextsAreNotTooDeep};
ghost use Rattle.protobuf_parse_options.specs.OptionLaw.{OptionsAreRead};
ghost use Rattle.protobuf_parse_options.specs.Recovery.{OptionsAreRecovered};
ghost use Rattle.protobuf_parse_options.specs.Recovery.{OptionsAreRecoveredAbove};
ghost use Rattle.protobuf_parse_options.specs.Recovery.{BuiltinOptionsAreNoBytes};
ghost use Rattle.protobuf_parse_options.specs.WithoutOptions.{CustomsAreOptions};
ghost use Rattle.protobuf_parse_options.specs.WithoutOptions.{CustomsIgnoreOptions};
ghost use Rattle.protobuf_parse_options.specs.WithoutOptions.{CustomsMakeNoDifference};
ghost use Rattle.protobuf_parse_options.specs.WithoutOptions.{MeaningIgnoresOptions};
ghost use Rattle.protobuf_parse_options.specs.WithoutOptions.{NumbersIgnoreOptions};
ghost use Rattle.protobuf_parse_options.specs.WithoutOptions.{ReadingIgnoresOptions};

/// Where no fault stands in the custom options of a construct, and each message that may be entered
/// is declared once, with fields of distinct numbers, bytes that spell what they denote are read as
/// its numbers and values.
pub fn options_are_read()
    ensures { OptionsAreRead }
{}

/// Where no fault stands in the custom options of a file, the bytes of the function `option_bytes`
/// spell what they denote.
pub fn option_bytes_spell()
    ensures { OptionBytesSpell }
{}

/// What custom options denote has at most 200 messages inside one another, where names have at most
/// 100 parts and constants nest at most 100 deep, so that the reader never meets too many. In the
/// tree of a text they do, so it is said of each set of a text's options.
pub fn never_too_deep()
    ensures options { NeverTooDeep }
    ensures texts { TextsAreNotTooDeep }
{}

/// What the name of an extension means is declared in the longest front of the scope in which an
/// extension has that name; a name that means nothing is declared in no front; a name with a first
/// dot means the extension of just that full name.
pub fn extensions_are_looked_up()
    ensures longest { MeansTheLongest FieldDescriptor }
    ensures nothing { MeansNothing FieldDescriptor }
    ensures itself { MeansItself FieldDescriptor }
{}

/// Where no name is declared twice, it makes no difference to what custom options are and to what
/// is wrong in them in which order the files are listed that a file reaches and that it sees. Each
/// `package` of these files has a name, as in every text.
pub fn any_order()
    ensures { OrderMakesNoDifference }
{}

/// By files that are the same but for options the same bytes are read as the same, numbers of
/// fields are distinct alike, and custom options denote the same and are wrong alike. Custom
/// options change nothing in descriptors but options, so which ones a file sets itself makes no
/// difference to what is read by its descriptor, nor to what custom options mean.
pub fn options_are_not_read()
    ensures reading { ReadingIgnoresOptions }
    ensures numbers { NumbersIgnoreOptions }
    ensures meaning { MeaningIgnoresOptions }
    ensures customs { CustomsIgnoreOptions }
    ensures descriptors { CustomsAreOptions }
    ensures by_path { CustomsMakeNoDifference }
{}

/// Where no fault stands in a file and in all that it reaches, and numbers of fields are distinct,
/// the bytes that its custom options become are read, by the options message of their construct, as
/// the numbers and values that the statements denote. By the descriptors of these files so are
/// those of each file that it reaches. Where no custom option is set there are no bytes.
pub fn options_are_recovered()
    ensures custom { OptionsAreRecovered }
    ensures above { OptionsAreRecoveredAbove }
    ensures builtin { BuiltinOptionsAreNoBytes }
{}

/// Custom options in which nothing is wrong mean the same where more files are at hand than their
/// file reaches, and nothing is wrong in them there, where no name is declared twice. Each
/// `package` of these files has a name, as in every text.
pub fn more_files()
    ensures lookups { LookupsKeepMeaning }
    ensures by_path { MoreFilesKeepMeaning }
{}
