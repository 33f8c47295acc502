ghost use Rattle.std.specs.Prelude.{◌≡◌, ◌-◌, ◌≤◌, length, None, OnErr};
ghost use Rattle.address.specs.Address.{code_of};
ghost use Rattle.address.specs.Code.{code_number};
ghost use Rattle.address.specs.Rewrite.{buffer_octets};
ghost use Rattle.pieces.specs.Pieces.{count_answer};
ghost use Rattle.timed_table.specs.Table.{last_from, is_free, opened};
ghost use Rattle.timed_table.specs.declared.entry.Entry.TheVariants.{Timed};
ghost use Rattle.timed_table.specs.Tables.{Kept};
ghost use Rattle.routing.specs.Targets.{target_for};
ghost use Rattle.outgoing.specs.Puts.{Behind};
ghost use Rattle.outgoing.specs.Units.{heading_seen};
ghost use Rattle.station_laws.specs.Station.{View, heading_of, in_pieces, in_one_message, goes_out, send_to, send as send_event};
ghost use Rattle.station.specs.Memory.{Untouched};
ghost use Rattle.station.specs.Replies.{send_reply};
ghost use Rattle.station.specs.Views.{seen, step_of, request_seen, request_in};

use crate::answers::Sent;
use crate::held::Station;
use crate::refusals::SendRefusal;
use crate::requests::UnitDataRequest;
use address::{Address, AddressBuffer, PointCode};
use line::Line;
use outgoing::units::selection;
use outgoing::{Class, Outgoing, UnitReference, calling_for, or_given, put_one, put_pieces};
use pieces::{ONE_PIECE, piece_count};
use routing::{Network, Target, code_of};
use slot_parts::deciding::UNIT_MOST;
use slots::Reference;

// So many ticks a reference is frozen.
const FREEZING: u8 = 30;

// Puts a unit that fits one message on the line. For put_unit, which knows that it does.
fn put_single<'s, 'd, L: Line>(
    line: &mut L,
    unit: Outgoing<'s>,
    contents: &'d [u8],
) -> Result<Sent<'d>, SendRefusal>
    requires one { (count_answer (length unit.called.octets.now) (length unit.calling.octets.now) (length contents.now)) ≡ 1 }
    ensures answer { (v : View) → send_reply result ≡ (in_one_message (L.places line.old) v (heading_seen unit.entry) contents.now).reply }
    ensures line { (v : View) → Behind L.waiting L.places line.old line.new (in_one_message (L.places line.old) v (heading_seen unit.entry) contents.now).sent }
    ensures idle { OnErr result (line.new ≡ line.old) }
{
    put_one(line, unit, contents).map_err(|_| SendRefusal::TooFewPlaces)?;
    Ok(Sent::Message {
        code: unit.dpc,
        sls: selection(unit.class.number(), unit.sequence),
    })
}

impl<'a> Station<'a> {
    // Gives a reference and freezes it, in the highest-numbered free entry. For put_cut, which knows that there is one.
    fn freeze(&mut self, reference: UnitReference)
        ensures references { Kept self.old.references self.new.references (opened (last_from is_free 0 None (seen self.old).frozen) (Timed (record { number = reference.number }) 30 tt) (seen self.old).frozen) }
        ensures last { self.new.last ≡ reference }
        ensures slots { self.new.slots ≡ self.old.slots }
        ensures settings { self.new.slots.settings ≡ self.old.slots.settings }
    {
        let key = Reference {
            number: reference.number(),
        };
        let _ = self.references.take_free(key, FREEZING, ());
        self.last = reference;
    }

    // Puts a unit on the line in pieces. For put_unit, which has counted them.
    fn put_cut<'s, 'd, L: Line>(
        &mut self,
        line: &mut L,
        unit: Outgoing<'s>,
        count: usize,
        contents: &'d [u8],
    ) -> Result<Sent<'d>, SendRefusal>
        requires many { 2 ≤ count }
        requires count { count ≡ (count_answer (length unit.called.octets.now) (length unit.calling.octets.now) (length contents.now)) }
        ensures answer { send_reply result ≡ (in_pieces (L.places line.old) (seen self.old) (heading_seen unit.entry) contents.now (count - 1) (last_from is_free 0 None (seen self.old).frozen)).reply }
        ensures seen { seen self.new ≡ (in_pieces (L.places line.old) (seen self.old) (heading_seen unit.entry) contents.now (count - 1) (last_from is_free 0 None (seen self.old).frozen)).after }
        ensures line { Behind L.waiting L.places line.old line.new (in_pieces (L.places line.old) (seen self.old) (heading_seen unit.entry) contents.now (count - 1) (last_from is_free 0 None (seen self.old).frozen)).sent }
        ensures rest { Untouched self.old self.new }
        ensures idle { OnErr result ((self.new ≡ self.old) × (line.new ≡ line.old)) }
    {
        if self.references.last_free().is_none() {
            return Err(SendRefusal::NoFreeReference);
        }
        if line.places() < count {
            return Err(SendRefusal::TooFewPlaces);
        }
        let reference = self.last.next();
        let each = ONE_PIECE - unit.called.octets().len() - unit.calling.octets().len();
        put_pieces(line, unit, reference, each, (count - 1) as u8, contents);
        self.freeze(reference);
        Ok(Sent::Pieces {
            code: unit.dpc,
            count,
            reference: reference.number(),
            sls: selection(Class::InSequence.number(), unit.sequence),
        })
    }

    // Puts a unit on the line, in one message or in pieces.
    fn put_unit<'s, 'd, L: Line>(
        &mut self,
        line: &mut L,
        unit: Outgoing<'s>,
        contents: &'d [u8],
    ) -> Result<Sent<'d>, SendRefusal>
        ensures answer { send_reply result ≡ (goes_out (L.places line.old) (seen self.old) (heading_seen unit.entry) contents.now).reply }
        ensures seen { seen self.new ≡ (goes_out (L.places line.old) (seen self.old) (heading_seen unit.entry) contents.now).after }
        ensures line { Behind L.waiting L.places line.old line.new (goes_out (L.places line.old) (seen self.old) (heading_seen unit.entry) contents.now).sent }
        ensures rest { Untouched self.old self.new }
        ensures idle { OnErr result ((self.new ≡ self.old) × (line.new ≡ line.old)) }
    {
        let called = unit.called.octets().len();
        let calling = unit.calling.octets().len();
        match piece_count(called, calling, contents.len()) {
            None => Err(SendRefusal::TooManyPieces),
            Some(1) => put_single(line, unit, contents),
            Some(count) => self.put_cut(line, unit, count, contents),
        }
    }

    // Sends a unit of this class out to a code, with this called address.
    fn send_out<'d, L: Line>(
        &mut self,
        line: &mut L,
        own: PointCode,
        code: PointCode,
        called: AddressBuffer,
        class: Class,
        request: UnitDataRequest<'d>,
    ) -> Result<Sent<'d>, SendRefusal>
        ensures answer { send_reply result ≡ (goes_out (L.places line.old) (seen self.old) (heading_of (code_number own) (code_number code) (buffer_octets called) (request_in class request.entry)) request.entry.«data».now).reply }
        ensures seen { seen self.new ≡ (goes_out (L.places line.old) (seen self.old) (heading_of (code_number own) (code_number code) (buffer_octets called) (request_in class request.entry)) request.entry.«data».now).after }
        ensures line { Behind L.waiting L.places line.old line.new (goes_out (L.places line.old) (seen self.old) (heading_of (code_number own) (code_number code) (buffer_octets called) (request_in class request.entry)) request.entry.«data».now).sent }
        ensures rest { Untouched self.old self.new }
        ensures idle { OnErr result ((self.new ≡ self.old) × (line.new ≡ line.old)) }
    {
        let called = Address::new(called.octets());
        let calling = calling_for(own, called, request.calling);
        let unit = Outgoing {
            dpc: code.number(),
            opc: own.number(),
            called,
            calling: or_given(&calling, request.calling),
            class,
            returns: request.return_option,
            sequence: request.sequence,
        };
        self.put_unit(line, unit, request.data)
    }

    // Sends a unit of this class to where its called address leads.
    fn send_to<'d, L: Line, N: Network>(
        &mut self,
        line: &mut L,
        network: &N,
        class: Class,
        request: UnitDataRequest<'d>,
    ) -> Result<Sent<'d>, SendRefusal>
        ensures answer { send_reply result ≡ (send_to self.old.slots.settings.code (L.places line.old) (seen self.old) (request_in class request.entry) (target_for (N.told network.now) self.old.slots.settings.code (code_of request.entry.called.octets.now) request.entry.called.octets.now)).reply }
        ensures seen { seen self.new ≡ (send_to self.old.slots.settings.code (L.places line.old) (seen self.old) (request_in class request.entry) (target_for (N.told network.now) self.old.slots.settings.code (code_of request.entry.called.octets.now) request.entry.called.octets.now)).after }
        ensures line { Behind L.waiting L.places line.old line.new (send_to self.old.slots.settings.code (L.places line.old) (seen self.old) (request_in class request.entry) (target_for (N.told network.now) self.old.slots.settings.code (code_of request.entry.called.octets.now) request.entry.called.octets.now)).sent }
        ensures rest { Untouched self.old self.new }
        ensures idle { OnErr result ((self.new ≡ self.old) × (line.new ≡ line.old)) }
    {
        let node = self.node(network);
        let target = node
            .target_for(code_of(request.called), request.called)
            .map_err(|cause| SendRefusal::NoWay { cause })?;
        match target {
            Target::Here { subsystem } => Ok(Sent::Here {
                subsystem,
                data: request.data,
            }),
            Target::Away { code, called } => self.send_out(
                line, node.code, code, called, class, request,
            ),
        }
    }

    // Sends a unit: to a subsystem here, or out to another code, in one message or in pieces.
    // Stays: line and network are given side by side, here and where a message is received, since the one is written and the other only asked.
    pub fn send<'d, L: Line, N: Network>(
        &mut self,
        line: &mut L,
        network: &N,
        request: UnitDataRequest<'d>,
    ) -> Result<Sent<'d>, SendRefusal>
        ensures answer { send_reply result ≡ (step_of self.old (send_event (N.told network.now) (L.places line.old) (request_seen request.entry))).reply }
        ensures seen { seen self.new ≡ (step_of self.old (send_event (N.told network.now) (L.places line.old) (request_seen request.entry))).after }
        ensures line { Behind L.waiting L.places line.old line.new (step_of self.old (send_event (N.told network.now) (L.places line.old) (request_seen request.entry))).sent }
        ensures rest { Untouched self.old self.new }
        ensures idle { OnErr result ((self.new ≡ self.old) × (line.new ≡ line.old)) }
    {
        if !request.called.is_good() {
            return Err(SendRefusal::CalledAddress);
        }
        if !request.calling.is_good() {
            return Err(SendRefusal::CallingAddress);
        }
        if !(1..=UNIT_MOST).contains(&request.data.len()) {
            return Err(SendRefusal::DataLength);
        }
        let class = Class::of_number(request.class).ok_or(SendRefusal::ProtocolClass)?;
        self.send_to(line, network, class, request)
    }
}
