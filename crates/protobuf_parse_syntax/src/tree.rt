//! The syntax tree of a file: the statements of the file and of each body in one list, in source
//! order, each with the place of its first token. Empty statements, lone semicolons, are not kept.

mod constant;
mod declaration;
mod field;
mod option;

ghost use Rattle.std.specs.Prelude.{◌≡◌};
ghost use Rattle.protobuf_parse_lexer.specs.Text.{seen_by};
ghost use Rattle.protobuf_parse_syntax.specs.Dependencies.{is_public, is_weak};
ghost use Rattle.protobuf_parse_syntax.specs.Trees.{file_syntax, statement_syntax, package_of};
ghost use Rattle.protobuf_parse_syntax.specs.Trees.{package_behind};

pub use constant::{ConstantField, ConstantFieldName, ProtobufConstant};
pub use declaration::{
    EnumStatement, EnumValue, Enumeration, Extend, Extensions, FieldNumberRange, Message,
    MessageStatement, Method, OneOf, OneOfStatement, Reserved, ReservedStatement, Service,
    ServiceStatement,
};
pub use field::{Field, FieldStatement, Group, Label, Scalar, Type};
pub use option::{OptionStatement, ProtobufOption, ProtobufOptionName, ProtobufOptionNamePart};
use protobuf_parse_base::proto_path::ProtoPathBuf;
use protobuf_parse_lexer::Place;

/// The version of the language that a file is written in.
#[derive(Clone, Copy, Debug, PartialEq, Eq)]
pub enum Syntax {
    Proto2,
    Proto3,
}

/// A file.
#[derive(Drop)]
pub struct FileTree {
    /// As the `syntax` statement says; proto2 in a file without one.
    pub syntax: Syntax,
    pub statements: Vec<FileStatement>,
}

impl FileTree {
    /// Its statements.
    pub fn into_statements(self) -> Vec<FileStatement>
        ensures { result ≡ self.statements }
    {
        let FileTree {
            syntax: _,
            statements,
        } = self;
        statements
    }

    /// The file's package, without a dot before it: the name of the last `package` statement, since
    /// it is the one that counts, and `None` where there is none.
    pub fn package(&self) -> Option<&str>
        ensures { seen_by (λ z. z.now) result ≡ package_of (file_syntax self.now) }
    {
        let mut name = None;
        'statements: for statement in &self.statements {
            name = package_behind(statement, name);
        }
        name
    }
}

/// The package that counts behind a statement.
fn package_behind<'a>(statement: &'a FileStatement, before: Option<&'a str>) -> Option<&'a str>
    ensures { seen_by (λ z. z.now) result
        ≡ package_behind (seen_by (λ z. z.now) before.entry) (statement_syntax statement.now) }
{
    match statement {
        FileStatement::Package(package) => Some(package.name.as_str()),
        _ => before,
    }
}

/// A statement of a file.
#[derive(Drop)]
pub enum FileStatement {
    Import(Import),
    Package(Package),
    Option(OptionStatement),
    Message(Message),
    Enumeration(Enumeration),
    Extend(Extend),
    Service(Service),
}

/// How an imported file is seen.
#[derive(Clone, Copy, Debug, PartialEq, Eq)]
pub enum ImportVis {
    Default,
    Public,
    Weak,
}

impl ImportVis {
    /// Whether the file is handed on to those that import this one.
    pub fn is_public(self) -> bool
        ensures { result ≡ is_public self }
    {
        matches!(self, ImportVis::Public)
    }

    /// Whether the import is weak.
    pub fn is_weak(self) -> bool
        ensures { result ≡ is_weak self }
    {
        matches!(self, ImportVis::Weak)
    }
}

/// `import "PATH";`, `import public "PATH";` or `import weak "PATH";`.
#[derive(Drop)]
pub struct Import {
    pub place: Place,
    pub vis: ImportVis,
    pub path: ProtoPathBuf,
}

/// `package NAME;`.
#[derive(Drop)]
pub struct Package {
    pub place: Place,
    /// Identifiers with dots between them.
    pub name: String,
}
