// This file has the devices of a command, taken together.

ghost use Rattle.std.specs.Prelude.{◌≡◌, ◌≤◌, ◌+◌, List, ℕ, [], length, IsOk};
ghost use Rattle.ptb_expr.specs.Store.{Cells};
ghost use Rattle.ptb_command.specs.Actions.{goes_on, show as show_action};
ghost use Rattle.ptb_command.specs.Devices.{nothing_refused};
ghost use Rattle.ptb_command.specs.Stops.{Comes, as_stop};

use crate::pending_output::{PENDING_LIMIT, PendingOutput};
use crate::stop::CommandStop;
use ptb_answers::{Chooser, Rules};
use ptb_devices::{LineSource, Screen};
use ptb_text::DeviceFault;

/// What a command asks, shows and reads.
#[derive(Drop)]
pub struct CommandIo<'a, C, S, L> {
    /// Answers the questions of RND.
    pub chooser: &'a mut C,
    /// Where bytes are shown.
    pub screen: &'a mut S,
    /// Where input lines come from.
    pub source: &'a mut L,
    /// Whether nothing was shown, or a newline last.
    pub fresh: bool,
    /// The rules of the run: of these, the bound with which INPUT asks for an answer where no line
    /// is left, if it does.
    pub rules: Rules,
}

impl<'a, C: Chooser, S: Screen, L: LineSource> CommandIo<'a, C, S, L> {
    ghost use Rattle.ptb_command.specs.CommandIo.{io_trace, pending_trace, SameDevices};

    /// These devices, taken together.
    pub fn new(
        chooser: &'a mut C,
        screen: &'a mut S,
        source: &'a mut L,
        fresh: bool,
        rules: Rules,
    ) -> Self
        ensures chooser { result.chooser.ghost_name ≡ chooser.entry.ghost_name }
        ensures screen { result.screen.ghost_name ≡ screen.entry.ghost_name }
        ensures source { result.source.ghost_name ≡ source.entry.ghost_name }
        ensures fresh { result.fresh ≡ fresh }
        ensures rules { result.rules ≡ rules }
        ensures chooser_now { result.chooser.now ≡ chooser.old }
        ensures screen_now { result.screen.now ≡ screen.old }
        ensures source_now { result.source.now ≡ source.old }
    {
        CommandIo {
            chooser,
            screen,
            source,
            fresh,
            rules,
        }
    }

    /// Shows bytes as a part of a command: later, with others, if there is room for them.
    #[inline(always)]
    pub(crate) fn show(
        &mut self,
        pending: &mut PendingOutput,
        bytes: &[u8],
    ) -> Result<(), CommandStop>
        ensures comes { (given : List (List ℕ)) (cells : Cells) → Comes nothing_refused
            (pending_trace C.choices S.Screen L.most self.old given cells pending.old)
            (pending_trace C.choices S.Screen L.most self.new given cells pending.new)
            (show_action bytes.now) goes_on result }
        ensures same { SameDevices self.old self.new }
    {
        let mut fresh = self.fresh;
        let result = pending.show(self.screen, &mut fresh, bytes);
        self.fresh = fresh;
        result
    }

    /// Shows what was gathered if there is no room for `count` more bytes.
    #[inline(always)]
    pub(crate) fn make_room(
        &mut self,
        pending: &mut PendingOutput,
        count: usize,
    ) -> Result<(), CommandStop>
        ensures comes { (given : List (List ℕ)) (cells : Cells) → Comes nothing_refused
            (pending_trace C.choices S.Screen L.most self.old given cells pending.old)
            (pending_trace C.choices S.Screen L.most self.new given cells pending.new)
            (goes_on tt) goes_on result }
        ensures room { count ≤ PENDING_LIMIT → IsOk result → length pending.new + count ≤ PENDING_LIMIT }
        ensures kept { length pending.old + count ≤ PENDING_LIMIT → pending.new ≡ pending.old }
        ensures same { SameDevices self.old self.new }
    {
        if pending.room() < count {
            self.flush(pending)?;
        }
        Ok(())
    }

    /// Shows what was gathered. Nothing is gathered then, even if the screen fails.
    ///
    /// # Errors
    ///
    /// [`DeviceFault`] where the screen doesn't show it all.
    // Inlined, as are the others, so that the devices stay in registers of the processor.
    #[inline(always)]
    pub(crate) fn flush(&mut self, pending: &mut PendingOutput) -> Result<(), DeviceFault>
        ensures comes { (given : List (List ℕ)) (cells : Cells) → Comes nothing_refused
            (pending_trace C.choices S.Screen L.most self.old given cells pending.old)
            (io_trace C.choices S.Screen L.most self.new given cells)
            (goes_on tt) goes_on (as_stop result) }
        ensures empty { pending.new ≡ [] }
        ensures chooser { self.new.chooser ≡ self.old.chooser }
        ensures same { SameDevices self.old self.new }
    {
        let mut fresh = self.fresh;
        let result = pending.flush(self.screen, &mut fresh);
        self.fresh = fresh;
        result
    }
}
