//! A script as far as its lines were read.
ghost use Rattle.std.specs.Prelude.{◌≡◌, ◌+◌, ◌<◌, ◌++◌, ◌∷◌, [], List, ℕ, Some, None, Ok, length};
ghost use Rattle.std.specs.Prelude.{MatchResult, OnOk, IfOk, MatchOption};
ghost use Rattle.host_script.specs.Images.{names, number as image_number};
ghost use Rattle.host_script.specs.LineForm.{before, line_reading};
ghost use Rattle.host_script.specs.Outcome.{GivesFault};
ghost use Rattle.host_script.specs.State.{kept_of, CanTake, with_form, script_in, IsStateOf};
ghost use Rattle.host_script.specs.declared.line_form.LineForm.{LineForm};

use crate::cause::LineFault;
use crate::command::{Command, CommandLine};
use crate::images::{ImageLine, ImageLines};
use crate::line_form::{Above, LineForm, line_form};
use crate::script::{AppLine, Script};
use cli_words::{Listed, Name, Utf8Text};
use std::alloc::{AllocError, Global};
use std::mem;

/// What the lines so far say.
#[derive(Drop)]
pub struct Reading {
    pub above: Above,
    /// The applications.
    pub app: Vec<AppLine>,
    /// The commands of each thread but the last.
    pub done: Vec<Listed<CommandLine>>,
    /// The commands of the last thread.
    pub block: Vec<CommandLine>,
}

impl Reading {
    /// Before the first line.
    pub fn new(alloc: Global) -> Reading
        ensures { IsStateOf (kept_of result) [] }
    {
        let above = Above {
            images: ImageLines::new(alloc),
            listed: Vec::new(alloc),
            threads: 0,
            commands: 0,
        };
        Reading {
            above,
            app: Vec::new(alloc),
            done: Vec::new(alloc),
            block: Vec::new(alloc),
        }
    }

    /// Takes the next line, which has this number.
    pub fn take_line(&mut self, alloc: Global, number: u32, line: &[u8]) -> Result<(), LineFault>
        ensures { (lines : List (List ℕ)) → IsStateOf (kept_of self.old) lines →
            number ≡ length lines + 1 →
            MatchResult result (λ _. IsStateOf (kept_of self.new) (lines ++ line.now ∷ []))
            (λ fault. GivesFault fault (line_reading (before lines) line.now)) }
    {
        match line_form(alloc, &self.above, line)? {
            None => Ok(()),
            Some(form) => match self.take_form(alloc, number, form) {
                Ok(()) => Ok(()),
                Err(_) => Err(LineFault::OutOfMemory),
            },
        }
    }

    fn take_form(&mut self, alloc: Global, number: u32, form: LineForm) -> Result<(), AllocError>
        requires { CanTake (kept_of self.old) form }
        ensures { OnOk result (kept_of self.new ≡ with_form (kept_of self.old) number form) }
    {
        match form {
            LineForm::Image { name, path } => self.take_image(alloc, number, name, path),
            LineForm::App { name, image } => self.take_app(number, name, image),
            LineForm::Thread => self.take_thread(alloc),
            LineForm::Command(command) => self.take_command(number, command),
        }
    }

    fn take_image(
        &mut self,
        alloc: Global,
        number: u32,
        name: Name,
        path: Utf8Text,
    ) -> Result<(), AllocError>
        requires few { length self.old.above.images < 256 }
        requires undeclared { image_number (names self.old.above.images) name ≡ None }
        ensures { OnOk result
            (kept_of self.new ≡ with_form (kept_of self.old) number (LineForm.Image name path)) }
    {
        let line = ImageLine { line: number, path };
        self.above.images.declare(alloc, name.bytes(), line)
    }

    fn take_app(&mut self, number: u32, name: Name, image: u32) -> Result<(), AllocError>
        ensures { OnOk result
            (kept_of self.new ≡ with_form (kept_of self.old) number (LineForm.App name image)) }
    {
        self.above.listed.push(name)?;
        self.app.push(AppLine {
            line: number,
            image,
        })?;
        Ok(())
    }

    fn take_thread(&mut self, alloc: Global) -> Result<(), AllocError>
        requires { self.old.above.threads < 8 }
        ensures { (line : ℕ) → OnOk result
            (kept_of self.new ≡ with_form (kept_of self.old) line LineForm.Thread) }
    {
        let block = mem::replace(&mut self.block, Vec::new(alloc));
        if self.above.threads > 0 {
            self.done.push(Listed::of(block))?;
        }
        self.above.threads += 1;
        Ok(())
    }

    fn take_command(&mut self, number: u32, command: Command) -> Result<(), AllocError>
        requires { self.old.above.commands < 1024 }
        ensures { OnOk result
            (kept_of self.new ≡ with_form (kept_of self.old) number (LineForm.Command command)) }
    {
        self.block.push(CommandLine {
            line: number,
            command,
        })?;
        self.above.commands += 1;
        Ok(())
    }

    /// The script, once all lines are read; `None` exactly where no thread began.
    pub fn script(self) -> Result<Option<Script>, AllocError>
        ensures { IfOk result (λ found. MatchOption found (self.above.threads ≡ 0)
            (λ script. (0 < self.above.threads) × (script ≡ script_in (kept_of self)))) }
    {
        let Reading {
            above,
            app,
            mut done,
            block,
        } = self;
        if above.threads == 0 {
            return Ok(None);
        }
        done.push(Listed::of(block))?;
        Ok(Some(Script {
            images: above.images,
            app: Listed::of(app),
            threads: Listed::of(done),
        }))
    }
}
