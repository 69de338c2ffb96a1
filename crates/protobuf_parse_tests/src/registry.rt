//! The caller of `CALLING.md`: a registry that holds its schemas in memory, and reads who owns a
//! message.

use protobuf_parse::pure::parse_and_typecheck_custom;
use protobuf_parse::{
    DescriptorProto, FileDescriptorProto, ProtoPath, ProtoPathBuf, ProtoPathResolver,
    ProtobufAbsPathRef, ReadFault, ReadField, ReadValue, ResolveFault, ResolvedProtoFile,
    read_custom,
};
use std::alloc::{AllocError, Global};
use std::fmt;
use std::test::Fail;

/// Schemas, each with its path.
#[derive(Clone, Copy)]
struct Registry<'a> {
    schemas: &'a [(&'a str, &'a str)],
}

impl<'a> fmt::Display for Registry<'a> {
    fn fmt<W: fmt::Write>(&self, f: &mut fmt::Formatter<W>) -> fmt::Result {
        f.write_str("the registry")
    }
}

impl<'a> ProtoPathResolver for Registry<'a> {
    // What may be answered for a path. Here it is anything; one that gives no fault but want of
    // memory can say so, and then no run by it ends with L5.
    ghost may_answer = { λ _ _ _. Unit {0} };

    fn resolve(
        &self,
        alloc: Global,
        path: ProtoPath<'_>,
    ) -> Result<Option<ResolvedProtoFile>, ResolveFault> {
        for (name, text) in self.schemas {
            if *name == path.to_str() {
                return found(alloc, name, text).map_err(|_| ResolveFault::Memory);
            }
        }
        Ok(None)
    }
}

/// Two resolvers: the second is asked for what the first one does not have.
#[derive(Clone, Copy)]
struct OneThenOther<'r, A, B> {
    one: &'r A,
    other: &'r B,
}

impl<'r, A: fmt::Display, B: fmt::Display> fmt::Display for OneThenOther<'r, A, B> {
    fn fmt<W: fmt::Write>(&self, f: &mut fmt::Formatter<W>) -> fmt::Result {
        let OneThenOther { one, other } = self;
        write!(f, "{one} and {other}")
    }
}

impl<'r, A: ProtoPathResolver, B: ProtoPathResolver> ProtoPathResolver for OneThenOther<'r, A, B> {
    ghost may_answer = { λ _ _ _. Unit {0} };

    fn resolve(
        &self,
        alloc: Global,
        path: ProtoPath<'_>,
    ) -> Result<Option<ResolvedProtoFile>, ResolveFault> {
        match self.one.resolve(alloc, path)? {
            Some(file) => Ok(Some(file)),
            None => self.other.resolve(alloc, path),
        }
    }
}

fn found(alloc: Global, name: &str, text: &str) -> Result<Option<ResolvedProtoFile>, AllocError> {
    Ok(Some(ResolvedProtoFile {
        path: String::from_str(alloc, name)?,
        content: Vec::from_slice(alloc, text.as_bytes())?,
    }))
}

/// The custom options of a message.
fn options_of(
    alloc: Global,
    files: &[FileDescriptorProto],
    message: &DescriptorProto,
) -> Result<Vec<ReadField>, ReadFault> {
    let of = ProtobufAbsPathRef::try_new(".google.protobuf.MessageOptions");
    match (of, &message.options) {
        (Some(of), Some(options)) => read_custom(alloc, files, of, &options.custom),
        _ => Ok(Vec::new(alloc)),
    }
}

const SCHEMAS: &[(&str, &str)] = &[
    (
        "owner.proto",
        "import 'google/protobuf/descriptor.proto';
        extend google.protobuf.MessageOptions { optional string owner = 50000; }",
    ),
    (
        "shop.proto",
        "import 'owner.proto';
        message Item { option (owner) = 'stock'; }
        message Order { option deprecated = true; }",
    ),
];

#[test]
fn reads_who_owns_a_message(rt: HostRuntime) -> Result<(), Fail> {
    let alloc = rt.alloc();
    let registry = Registry { schemas: SCHEMAS };
    let shop = ProtoPathBuf::new(String::from_str(alloc, "shop.proto")?)?;
    let paths = vec![in alloc; shop]?;
    let files = parse_and_typecheck_custom(alloc, &paths, &registry)?;
    let mut owners = String::new(alloc);
    for file in &files {
        for message in &file.message_type {
            for option in &options_of(alloc, &files, message)? {
                if let (50000, ReadValue::Bytes(owner)) = (option.number, &option.value) {
                    let owner = str::from_utf8(owner)?;
                    write!(owners, "{} belongs to {owner}\n", message.name)?;
                }
            }
        }
    }
    assert_eq!(rt; owners.as_str(), "Item belongs to stock\n");
    Ok(())
}

#[test]
fn asks_one_resolver_and_then_another(rt: HostRuntime) -> Result<(), Fail> {
    let alloc = rt.alloc();
    let own = Registry {
        schemas: &[("owner.proto", "message Owner {}")],
    };
    let others = Registry { schemas: SCHEMAS };
    let both = OneThenOther {
        one: &own,
        other: &others,
    };
    let mut paths = Vec::new(alloc);
    for path in ["owner.proto", "shop.proto"] {
        paths.push(ProtoPathBuf::new(String::from_str(alloc, path)?)?)?;
    }
    let told = match parse_and_typecheck_custom(alloc, &paths, &both) {
        Ok(_) => String::new(alloc),
        Err(fault) => format!(in alloc; "{fault}")?,
    };
    // The first one's file stands, which declares no option.
    assert_eq!(rt;
        told.as_str(),
        "error in `shop.proto`: E14 ExtensionNotFound: owner"
    );
    Ok(())
}
