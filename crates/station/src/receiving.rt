ghost use Rattle.std.specs.Prelude.{◌≡◌, OnErr};
ghost use Rattle.address.specs.Code.{code_number};
ghost use Rattle.message.specs.Read.{seen as parts_seen, parse};
ghost use Rattle.slots.specs.Answers.{piece_reply as slot_reply};
ghost use Rattle.routing.specs.Deliveries.{as_piece, delivery_of};
ghost use Rattle.routing.specs.Meanings.{TablesView};
ghost use Rattle.routing.specs.Ways.{way_for};
ghost use Rattle.outgoing.specs.Puts.{Behind};
ghost use Rattle.outgoing.specs.Returns.{give_back};
ghost use Rattle.station_laws.specs.Station.{given_reply, piece_told, told_outcome, brought, routed_by, receive as receive_event};
ghost use Rattle.station.specs.Memory.{Slots, SlotsRead, delivered_to, incoming_by, incoming};
ghost use Rattle.station.specs.Replies.{received_as, piece_reply, receive_reply, Follows};
ghost use Rattle.station.specs.Views.{seen, step_of, routing};

use crate::answers::Received;
use crate::held::Station;
use crate::refusals::ReceiveRefusal;
use line::Line;
use message::{Message, Parts, Segmentation, read};
use outgoing::{Givenback, give_back, pass_on};
use routing::{Delivery, Network, Node, Way, delivery_of};
use slots::{PieceAnswer, PieceRefusal, StationMark};
use translation::Cause;

// What is told of a message with a cause.
fn caused<'m, L: Line, N: Network>(
    line: &mut L,
    node: &Node<'_, N>,
    cause: Cause,
    parts: Parts<'m>,
) -> Received<'m>
    ensures answer { received_as result ≡ given_reply cause (parts_seen parts.entry) (give_back (N.told node.now.network.now) (code_number node.now.code) (L.places line.old) cause (parts_seen parts.entry)).done }
    ensures line { Behind L.waiting L.places line.old line.new (give_back (N.told node.now.network.now) (code_number node.now.code) (L.places line.old) cause (parts_seen parts.entry)).sent }
{
    match give_back(line, node, cause, parts) {
        Givenback::Returned { code } => Received::Returned { cause, code },
        Givenback::ToldHere { subsystem } => Received::ToldHere {
            cause,
            subsystem,
            parts,
        },
        Givenback::Discarded => Received::Discarded { cause },
    }
}

// What is told of a piece for a subsystem, by the answer of the slots; or the cause against it.
// Stays: subsystem and parts side by side, as the answers tell them.
fn told<'m>(
    subsystem: u8,
    parts: Parts<'m>,
    answer: Result<PieceAnswer<'m>, PieceRefusal>,
) -> Result<Received<'m>, Cause>
    ensures { piece_reply result ≡ piece_told subsystem (parts_seen parts.entry) (slot_reply answer.entry) }
{
    match answer {
        Ok(PieceAnswer::Alone { unit: _ }) => Ok(Received::HandedUp { subsystem, parts }),
        Ok(PieceAnswer::NoSlots) => Err(Cause::NoReassembly),
        Ok(PieceAnswer::NoneFree) => Err(Cause::NetworkCongestion),
        Ok(PieceAnswer::Opened { slot }) => Ok(Received::Opened { slot }),
        Ok(PieceAnswer::Restarted { slot }) => Ok(Received::Restarted { slot }),
        Ok(PieceAnswer::Stray) => Ok(Received::Stray),
        Ok(PieceAnswer::Broken { slot }) => Ok(Received::Broken { slot }),
        Ok(PieceAnswer::Held { slot }) => Ok(Received::Held { slot }),
        Ok(PieceAnswer::HandedUp { receipt }) => Ok(Received::FromPieces { subsystem, receipt }),
        Err(_) => Err(Cause::Unqualified),
    }
}

impl<'a> Station<'a> {
    // Takes in a piece for a subsystem here; or the cause against it.
    fn take_piece<'m>(
        &mut self,
        subsystem: u8,
        segmentation: Segmentation,
        parts: Parts<'m>,
    ) -> Result<Received<'m>, Cause>
        ensures told { (t : TablesView) (places : _) → told_outcome t self.old.slots.settings.code places (seen self.new) (parts_seen parts.entry) (piece_reply result) ≡ brought t self.old.slots.settings.code self.old.slots.settings.ticks places (seen self.old) subsystem (parts_seen parts.entry) (as_piece segmentation) }
        ensures slots { Slots self.old.slots.settings.ticks self.old.slots self.new.slots (parts_seen parts.entry) (delivered_to subsystem (parts_seen parts.entry) (as_piece segmentation)) }
        ensures references { self.new.references ≡ self.old.references }
        ensures settings { self.new.slots.settings ≡ self.old.slots.settings }
    {
        let mark = StationMark::new(
            parts.label.opc,
            subsystem,
            parts.calling.octets(),
            segmentation.reference,
        )
        .ok_or(Cause::Unqualified)?;
        let answer = self.slots.piece(mark, segmentation.first, segmentation.remaining, parts.data);
        told(subsystem, parts, answer)
    }

    // Brings a message to a subsystem here; or the cause against it.
    fn bring<'m>(&mut self, subsystem: u8, parts: Parts<'m>) -> Result<Received<'m>, Cause>
        ensures told { (t : TablesView) (places : _) → told_outcome t self.old.slots.settings.code places (seen self.new) (parts_seen parts.entry) (piece_reply result) ≡ brought t self.old.slots.settings.code self.old.slots.settings.ticks places (seen self.old) subsystem (parts_seen parts.entry) (delivery_of parts.entry.form parts.entry.options.octets.now) }
        ensures slots { Slots self.old.slots.settings.ticks self.old.slots self.new.slots (parts_seen parts.entry) (delivered_to subsystem (parts_seen parts.entry) (delivery_of parts.entry.form parts.entry.options.octets.now)) }
        ensures references { self.new.references ≡ self.old.references }
        ensures settings { self.new.slots.settings ≡ self.old.slots.settings }
    {
        match delivery_of(parts.form, parts.options) {
            Delivery::Unit => Ok(Received::HandedUp { subsystem, parts }),
            Delivery::Notice => Ok(Received::Notice { subsystem, parts }),
            Delivery::Piece(segmentation) => self.take_piece(subsystem, segmentation, parts),
        }
    }

    // Brings a message here or passes it on, as its called address says; or the cause against it.
    fn follow<'m, L: Line, N: Network>(
        &mut self,
        line: &mut L,
        network: &N,
        parts: Parts<'m>,
    ) -> Result<Received<'m>, Cause>
        ensures done { Follows L.waiting L.places line.old line.new (N.told network.now) self.old.slots.settings.code (seen self.new) (parts_seen parts.entry) (routed_by (N.told network.now) self.old.slots.settings.code self.old.slots.settings.ticks (L.places line.old) (seen self.old) (parts_seen parts.entry) (way_for (N.told network.now) self.old.slots.settings.code parts.entry.form parts.entry.called.octets.now)) result }
        ensures slots { Slots self.old.slots.settings.ticks self.old.slots self.new.slots (parts_seen parts.entry) (incoming_by (parts_seen parts.entry) (way_for (N.told network.now) self.old.slots.settings.code parts.entry.form parts.entry.called.octets.now)) }
        ensures references { self.new.references ≡ self.old.references }
        ensures settings { self.new.slots.settings ≡ self.old.slots.settings }
    {
        let node = self.node(network);
        match node.way_for(parts.form, parts.called)? {
            Way::Here { subsystem } => self.bring(subsystem, parts),
            Way::Onward { code, form, called } => {
                pass_on(line, node.code, code, form, called, parts)?;
                Ok(Received::PassedOn {
                    code: code.number(),
                })
            }
        }
    }

    // Routes the parts of a message.
    fn route_parts<'m, L: Line, N: Network>(
        &mut self,
        line: &mut L,
        network: &N,
        parts: Parts<'m>,
    ) -> Result<Received<'m>, ReceiveRefusal>
        ensures answer { receive_reply result ≡ (routing (N.told network.now) (L.places line.old) self.old (parts_seen parts.entry)).reply }
        ensures seen { seen self.new ≡ (routing (N.told network.now) (L.places line.old) self.old (parts_seen parts.entry)).after }
        ensures line { Behind L.waiting L.places line.old line.new (routing (N.told network.now) (L.places line.old) self.old (parts_seen parts.entry)).sent }
        ensures slots { Slots self.old.slots.settings.ticks self.old.slots self.new.slots (parts_seen parts.entry) (incoming (N.told network.now) self.old.slots.settings.code (parts_seen parts.entry)) }
        ensures references { self.new.references ≡ self.old.references }
        ensures settings { self.new.slots.settings ≡ self.old.slots.settings }
        ensures idle { OnErr result ((self.new ≡ self.old) × (line.new ≡ line.old)) }
    {
        if parts.label.dpc != self.settings().code() {
            return Err(ReceiveRefusal::NotOurs);
        }
        // Stays: a closure for unwrap_or_else would borrow the line, and what waits on it would not be known afterwards.
        match self.follow(line, network, parts) {
            Ok(received) => Ok(received),
            Err(cause) => Ok(caused(line, &self.node(network), cause, parts)),
        }
    }

    // Routes a message that was read, once: the message is spent by it.
    pub fn route<'m, L: Line, N: Network>(
        &mut self,
        line: &mut L,
        network: &N,
        message: Message<'m>,
    ) -> Result<Received<'m>, ReceiveRefusal>
        ensures answer { receive_reply result ≡ (routing (N.told network.now) (L.places line.old) self.old (parts_seen message.entry.parts)).reply }
        ensures seen { seen self.new ≡ (routing (N.told network.now) (L.places line.old) self.old (parts_seen message.entry.parts)).after }
        ensures line { Behind L.waiting L.places line.old line.new (routing (N.told network.now) (L.places line.old) self.old (parts_seen message.entry.parts)).sent }
        ensures slots { Slots self.old.slots.settings.ticks self.old.slots self.new.slots (parts_seen message.entry.parts) (incoming (N.told network.now) self.old.slots.settings.code (parts_seen message.entry.parts)) }
        ensures references { self.new.references ≡ self.old.references }
        ensures settings { self.new.slots.settings ≡ self.old.slots.settings }
        ensures idle { OnErr result ((self.new ≡ self.old) × (line.new ≡ line.old)) }
    {
        self.route_parts(line, network, message.parts())
    }

    // Receives octets from a line: reads them, and routes what they say.
    // Stays: line and network side by side, since the one is written and the other only asked.
    pub fn receive<'m, L: Line, N: Network>(
        &mut self,
        line: &mut L,
        network: &N,
        octets: &'m [u8],
    ) -> Result<Received<'m>, ReceiveRefusal>
        ensures answer { receive_reply result ≡ (step_of self.old (receive_event (N.told network.now) (L.places line.old) octets.now)).reply }
        ensures seen { seen self.new ≡ (step_of self.old (receive_event (N.told network.now) (L.places line.old) octets.now)).after }
        ensures line { Behind L.waiting L.places line.old line.new (step_of self.old (receive_event (N.told network.now) (L.places line.old) octets.now)).sent }
        ensures slots { SlotsRead self.old.slots.settings.ticks self.old.slots self.new.slots (N.told network.now) self.old.slots.settings.code (parse octets.now) }
        ensures references { self.new.references ≡ self.old.references }
        ensures settings { self.new.slots.settings ≡ self.old.slots.settings }
        ensures idle { OnErr result ((self.new ≡ self.old) × (line.new ≡ line.old)) }
    {
        let message = read(octets)?;
        self.route(line, network, message)
    }
}
