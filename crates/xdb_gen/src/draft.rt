ghost use Rattle.std.specs.Prelude.{◌≡◌, [], ◌∷◌, IsTrue, OnOk};
ghost use Rattle.xdb_plain.specs.Scripts.{is_script};
ghost use Rattle.xdb_gen.specs.Rules.{seen, with_said, with_load, with_command, by_rule, rule_of, upkeep, loads, snapshots};
ghost use Rattle.xdb_gen.specs.Said.{said, numbered_from};

use crate::commands::{command_by, drop_snap, install, load_open, snap};
use crate::draws::Draws;
use crate::rule::Rule;
use std::alloc::{AllocError, Global};
use std::marker::Model;
use xdb_plain::{By, Cmd, Line, Script, Which};

/// Who speaks, where it isn't the engine's owner.
const CLIENT: By = By::Client(1);

/// A script that grows by one operation after another. Its lines are numbered from 1.
#[derive(Debug, Drop)]
pub struct Draft {
    lines: Vec<Line>,
    draws: Draws,
}

impl Model for Draft {
    ghost use Rattle.xdb_gen.specs.Rules.{Progress, seen};
    ghost use Rattle.xdb_gen.specs.Said.{AreNumbered};

    ghost Value = { Progress };

    ghost view = { λ d. seen d.lines.items d.draws };

    ghost invariant = { λ d. AreNumbered d.lines.items };
}

impl Draft {
    pub fn new(alloc: Global, seed: u32) -> Self
        ensures { result ≡ seen [] seed }
    {
        Draft {
            lines: Vec::new(alloc),
            draws: Draws::new(seed),
        }
    }

    /// Says what the operation of this number says.
    pub fn say_operation(&mut self, operation: u32) -> Result<(), AllocError>
        ensures { OnOk result (self.new ≡ by_rule (rule_of operation) operation self.old) }
    {
        match Rule::of(operation) {
            Rule::Upkeep => self.say_upkeep(),
            Rule::Load => self.say_load(operation),
            Rule::Snapshot => self.say_snapshot(operation),
            Rule::Command => self.say_command(operation),
        }
    }

    fn say_upkeep(&mut self) -> Result<(), AllocError>
        ensures { OnOk result (self.new ≡ with_said self.old upkeep) }
    {
        self.say(By::Db, Cmd::Seal)?;
        self.say(By::Db, Cmd::Flush)?;
        self.say(By::Db, Cmd::Compact { which: Which::Auto })
    }

    fn say_load(&mut self, operation: u32) -> Result<(), AllocError>
        ensures { OnOk result (self.new ≡ with_load operation self.old) }
    {
        let drawn = self.draws.draw(1000);
        let alloc = self.allocator();
        self.say(CLIENT, load_open(alloc, operation, drawn)?)?;
        self.say(By::Db, Cmd::Seal)?;
        self.say(By::Db, Cmd::Flush)?;
        self.say(CLIENT, install(alloc, operation)?)
    }

    fn say_snapshot(&mut self, operation: u32) -> Result<(), AllocError>
        ensures { OnOk result (self.new ≡ with_said self.old (snapshots operation)) }
    {
        let alloc = self.allocator();
        if operation >= 1800 {
            self.say(CLIENT, drop_snap(alloc, operation - 900)?)?;
        }
        self.say(CLIENT, snap(alloc, operation)?)
    }

    fn say_command(&mut self, operation: u32) -> Result<(), AllocError>
        ensures { OnOk result (self.new ≡ with_command operation self.old) }
    {
        let kind = self.draws.draw(10);
        let drawn = self.draws.draw(1000);
        let cmd = command_by(self.allocator(), kind, operation, drawn)?;
        self.say(CLIENT, cmd)
    }

    /// Adds the line of this command, with the next number.
    fn say(&mut self, by: By, cmd: Cmd) -> Result<(), AllocError>
        ensures { OnOk result (self.new ≡ with_said self.old (said by cmd ∷ [])) }
    {
        let number = self.lines.len() as u64 + 1;
        self.lines.push(Line {
            number,
            by: Some(by),
            cmd,
        })?;
        Ok(())
    }

    fn allocator(&self) -> Global {
        *self.lines.allocator()
    }

    /// The script, without memory.
    pub fn into_script(self) -> Script
        requires { IsTrue (is_script (numbered_from 1 self.said)) }
        ensures { result ≡ numbered_from 1 self.said }
    {
        Script::new(self.lines)
    }
}
