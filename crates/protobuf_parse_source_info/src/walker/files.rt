//! Services and files.

ghost use Rattle.std.specs.Prelude.{◌≡◌, OnOk, IfOk, map, ◌∷◌, []};
ghost use Rattle.protobuf_parse_syntax.specs.Trees as view;
ghost use Rattle.protobuf_parse_source_info.specs.Walks as walks;
ghost use Rattle.protobuf_parse_source_info.specs.Parts as parts;
ghost use Rattle.protobuf_parse_source_info.specs.Files as files;
ghost use Rattle.protobuf_parse_source_info.specs.InnerViews.{doing, Takes, found_view, spot};

use crate::counts::{FileCounts, file_counted, methods_past};
use crate::found::Found;
use crate::token::{Point, START, Token};
use crate::walker::Walker;
use crate::walker::fields::Owner;
use protobuf_parse_syntax::{
    FileStatement, Import, ImportVis, Method, OptionStatement, Service, ServiceStatement,
};
use std::alloc::{AllocError, Global};

impl<'t, 'a> Walker<'t, 'a> {
    // ---- methods

    /// The word `stream`, where it stands.
    fn stream_word(&mut self, path: &[u32], number: u32, stands: bool) -> Result<(), AllocError>
        ensures { OnOk result (Takes (files.stream_word (parts.at path.now number) stands)
            (doing self.old) (doing self.new)) }
    {
        if stands {
            return self.token(path, number);
        }
        Ok(())
    }

    /// A part that is a name.
    fn named(&mut self, path: &[u32], number: u32) -> Result<(), AllocError>
        ensures { OnOk result (Takes (walks.part (parts.at path.now number) parts.name)
            (doing self.old) (doing self.new)) }
    {
        let at = self.begin(path, &[number])?;
        self.name();
        self.close(at);
        Ok(())
    }

    /// `"(" [ "stream" ] name ")"`, by the numbers of the word and of the name.
    fn streamed(
        &mut self,
        path: &[u32],
        numbers: (u32, u32),
        stands: bool,
    ) -> Result<(), AllocError>
        ensures { OnOk result (Takes (files.streamed path.now numbers.0 numbers.1 stands)
            (doing self.old) (doing self.new)) }
    {
        self.take();
        self.stream_word(path, numbers.0, stands)?;
        self.named(path, numbers.1)?;
        self.take();
        Ok(())
    }

    /// `"rpc" ident "(" [ "stream" ] name ")" "returns" "(" [ "stream" ] name ")"`
    fn rpc_head(&mut self, path: &[u32], method: &Method) -> Result<(), AllocError>
        ensures { OnOk result (Takes (files.rpc_head path.now (view.method_syntax method.now))
            (doing self.old) (doing self.new)) }
    {
        self.take();
        self.token(path, 1)?;
        self.streamed(path, (5, 2), method.client_streaming)?;
        self.take();
        self.streamed(path, (6, 3), method.server_streaming)?;
        Ok(())
    }

    /// `"stream" ident "(" name "," name ")"`
    fn stream_head(&mut self, path: &[u32]) -> Result<(), AllocError>
        ensures { OnOk result (Takes (files.stream_head path.now) (doing self.old)
            (doing self.new)) }
    {
        self.take();
        self.token(path, 1)?;
        self.take();
        self.named(path, 2)?;
        self.take();
        self.named(path, 3)?;
        self.take();
        Ok(())
    }

    fn method_head(&mut self, path: &[u32], method: &Method) -> Result<(), AllocError>
        ensures { OnOk result (Takes (files.method_head path.now (view.method_syntax method.now))
            (doing self.old) (doing self.new)) }
    {
        if self.sees("stream") {
            self.stream_head(path)?;
            return Ok(());
        }
        self.rpc_head(path, method)?;
        Ok(())
    }

    /// Behind the `{` of a block its options and `}`, behind a `;` nothing.
    fn method_block(
        &mut self,
        path: &[u32],
        stands: bool,
        options: &'a [OptionStatement],
    ) -> Result<(), AllocError>
        ensures { OnOk result (Takes (files.method_block path.now stands
            (map view.option_statement_syntax options.now)) (doing self.old) (doing self.new)) }
    {
        if !stands {
            return Ok(());
        }
        self.option_block(path, 4, options)?;
        self.take();
        Ok(())
    }

    fn method(&mut self, path: &[u32], index: u32, method: &'a Method) -> Result<(), AllocError>
        ensures { OnOk result (Takes (files.method_walk (parts.nth path.now 2 index)
            (view.method_syntax method.now)) (doing self.old) (doing self.new)) }
    {
        let own = self.path(path, &[2, index])?;
        let own = own.as_slice();
        let mark = self.mark()?;
        let at = self.open(mark.from, None, path, &[2, index])?;
        self.method_head(own, method)?;
        let has_block = self.sees("{");
        self.take();
        self.head_ends(at, mark);
        self.method_block(own, has_block, &method.options)?;
        self.close(at);
        Ok(())
    }

    // ---- services

    fn service_statement(
        &mut self,
        path: &[u32],
        index: u32,
        statement: &'a ServiceStatement,
    ) -> Result<(), AllocError>
        ensures { OnOk result (Takes (files.service_statement path.now index
            (view.service_statement_syntax statement.now)) (doing self.old) (doing self.new)) }
    {
        match statement {
            ServiceStatement::Method(method) => self.method(path, index, method),
            ServiceStatement::Option(option) => self.option(path, 3, option),
        }
    }

    fn service_body(&mut self, path: &[u32], body: &'a [ServiceStatement]) -> Result<(), AllocError>
        ensures { OnOk result (Takes (files.service_body path.now 0
            (map view.service_statement_syntax body.now)) (doing self.old) (doing self.new)) }
    {
        let mut index = 0;
        'statements: for statement in body {
            self.empties()?;
            self.service_statement(path, index, statement)?;
            index = methods_past(index, statement);
        }
        self.empties()?;
        Ok(())
    }

    /// `"service" ident "{" { rpc | stream | option | ";" } "}"`
    fn service(&mut self, index: u32, service: &'a Service) -> Result<(), AllocError>
        ensures { OnOk result (Takes (files.service_walk (6 ∷ index ∷ [])
            (view.service_syntax service.now)) (doing self.old) (doing self.new)) }
    {
        let own = self.path(&[], &[6, index])?;
        let own = own.as_slice();
        let mark = self.mark()?;
        let at = self.open(mark.from, None, &[], &[6, index])?;
        self.head(own)?;
        self.head_ends(at, mark);
        self.service_body(own, &service.body)?;
        self.take();
        self.close(at);
        Ok(())
    }

    // ---- files

    /// `"syntax" "=" str ";"`
    fn syntax(&mut self) -> Result<(), AllocError>
        ensures { OnOk result (Takes files.syntax_walk (doing self.old) (doing self.new)) }
    {
        let mark = self.mark()?;
        let at = self.open(mark.from, None, &[], &[12])?;
        self.take();
        self.take_item();
        self.take();
        self.head_ends(at, mark);
        self.close(at);
        Ok(())
    }

    /// The `syntax` statement, if it stands there.
    fn version(&mut self) -> Result<(), AllocError>
        ensures { OnOk result (Takes files.version_walk (doing self.old) (doing self.new)) }
    {
        if self.sees("syntax") {
            self.syntax()?;
            return Ok(());
        }
        Ok(())
    }

    /// The word behind `import`.
    fn visibility(&mut self, counts: FileCounts, vis: ImportVis) -> Result<(), AllocError>
        ensures { OnOk result (Takes (files.visibility counts vis) (doing self.old)
            (doing self.new)) }
    {
        match vis {
            ImportVis::Default => Ok(()),
            ImportVis::Public => self.token(&[10], counts.publics),
            ImportVis::Weak => self.token(&[11], counts.weaks),
        }
    }

    /// `"import" [ "weak" | "public" ] str ";"`
    fn import(&mut self, counts: FileCounts, import: &Import) -> Result<(), AllocError>
        ensures { OnOk result (Takes (files.import_walk counts (view.import_syntax import.now))
            (doing self.old) (doing self.new)) }
    {
        let mark = self.mark()?;
        let at = self.open(mark.from, None, &[], &[3, counts.imports])?;
        self.take();
        self.visibility(counts, import.vis)?;
        self.take_item();
        self.take();
        self.head_ends(at, mark);
        self.close(at);
        Ok(())
    }

    /// `"package" ident { "." ident } ";"`
    fn package(&mut self) -> Result<(), AllocError>
        ensures { OnOk result (Takes files.package_walk (doing self.old) (doing self.new)) }
    {
        let mark = self.mark()?;
        let at = self.open(mark.from, None, &[], &[2])?;
        self.take();
        self.name();
        self.take();
        self.head_ends(at, mark);
        self.close(at);
        Ok(())
    }

    fn statement(
        &mut self,
        counts: FileCounts,
        statement: &'a FileStatement,
    ) -> Result<(), AllocError>
        ensures { OnOk result (Takes (files.statement counts (view.statement_syntax statement.now))
            (doing self.old) (doing self.new)) }
    {
        match statement {
            FileStatement::Import(import) => self.import(counts, import),
            FileStatement::Package(_) => self.package(),
            FileStatement::Option(option) => self.option(&[], 8, option),
            FileStatement::Message(message) => self.message(&[], 4, counts.messages, message),
            FileStatement::Enumeration(enumeration) => {
                self.enumeration(&[], 5, counts.enums, enumeration)
            }
            FileStatement::Extend(extend) => {
                self.extend(Owner::file(&[]), counts.extensions(), extend)
            }
            FileStatement::Service(service) => self.service(counts.services, service),
        }
    }

    fn statements(&mut self, body: &'a [FileStatement]) -> Result<(), AllocError>
        ensures { OnOk result (Takes (files.file_body files.no_statements
            (map view.statement_syntax body.now)) (doing self.old) (doing self.new)) }
    {
        let mut counts = FileCounts {
            imports: 0,
            publics: 0,
            weaks: 0,
            messages: 0,
            enums: 0,
            extensions: 0,
            services: 0,
        };
        'statements: for statement in body {
            self.empties()?;
            self.statement(counts, statement)?;
            counts = file_counted(counts, statement);
        }
        self.empties()?;
        Ok(())
    }

    /// `[ syntax ] { import | package | option | message | enum | extend | service | ";" }`
    fn file(&mut self, body: &'a [FileStatement]) -> Result<(), AllocError>
        ensures { OnOk result (Takes (files.file_walk (map view.statement_syntax body.now))
            (doing self.old) (doing self.new)) }
    {
        let at = self.begin(&[], &[])?;
        self.version()?;
        self.statements(body)?;
        self.close(at);
        Ok(())
    }
}

/// The locations of a file, by the tokens of its text, by where that ends, and by its statements.
pub fn found_in<'t, 'a>(
    alloc: Global,
    tokens: &'t [Token<'t>],
    end: Point,
    statements: &'a [FileStatement],
) -> Result<Vec<Found<'a>>, AllocError>
    ensures { IfOk result (λ v. map found_view v.items
        ≡ (files.file_walk (map view.statement_syntax statements.now)
        (files.whole end (map spot tokens.now))).found) }
{
    let mut walker = Walker {
        alloc,
        tokens,
        taken: 0,
        skipped: Vec::new(alloc),
        last: START,
        end,
        found: Vec::new(alloc),
    };
    walker.file(statements)?;
    let Walker { found, .. } = walker;
    Ok(found)
}
