//! What a sending end holds for one consumer.

ghost use Rattle.vx_rows_values.specs.Limits.{max_packet_rows};

use std::alloc::{AllocError, Global};
use std::collections::VecDeque;
use std::marker::Model;
use vx_ports::{Packet, StreamEnd};
use vx_rows_values::ColType;
use vx_rows_views::{Chunk, Rows};

/// Calls: `new (add | next_packet)* (finish next_packet* | clear) close`. After an `Err` of `add` or `finish` comes `clear`.
///
/// The rows for one consumer, cut into packets: fewer rows than one packet holds, and the packets that wait.
/// It has the empty rows of its closing packet from the beginning, so that closing needs no memory.
pub struct Lane {
    alloc: Global,
    exchange: u32,
    place: u32,
    consumer: u32,
    size: usize,
    current: Rows,
    ready: VecDeque<Packet>,
    closing: Option<Rows>,
}

impl Drop for Lane {
    fn drop(self) {
        let Lane {
            alloc: _,
            exchange: _,
            place: _,
            consumer: _,
            size: _,
            current: _,
            ready: _,
            closing: _,
        } = self;
    }
}

impl Model for Lane {
    ghost use Rattle.vx_exchange.specs.LaneView.{LaneView, IsOutlet, is_given};

    ghost Value = { LaneView };

    ghost view = { λ l. record {
      way = record { exchange = l.exchange; place = l.place; consumer = l.consumer; types = l.current.types; size = l.size };
      current = l.current.rows;
      ready = l.ready.items;
      closed = is_given l.closing;
    } };

    ghost invariant = { λ l. IsOutlet (record {
      way = record { exchange = l.exchange; place = l.place; consumer = l.consumer; types = l.current.types; size = l.size };
      current = l.current.rows;
      ready = l.ready.items;
      closed = is_given l.closing;
    }) l.closing };
}

impl Lane {
    ghost use Rattle.std.specs.Prelude.{◌≡◌, ◌<◌, ◌≤◌, ◌++◌, ◌∷◌, [], length, slice_range, true, false, All, IfOk, OnOk, IfSome, IfNone};
    ghost use Rattle.vx_rows_views.specs.Chunks.{all_rows};
    ghost use Rattle.vx_ports.specs.Packets.{closes, content_rows};
    ghost use Rattle.vx_ports.specs.Seen.{ending_content};
    ghost use Rattle.vx_exchange.specs.LaneView.{parcel_of, parcel_at, empty_outlet, Cuts, CutsRest};

    /// Nothing for this consumer of an exchange, in packets of up to `size` rows of these types: 1 to 4,096.
    pub fn new(
        alloc: Global,
        exchange: u32,
        place: u32,
        consumer: u32,
        size: usize,
        types: &[ColType],
    ) -> Result<Lane, AllocError>
        requires some { 1 ≤ size }
        requires few { size ≤ max_packet_rows }
        ensures { IfOk result (λ l. l ≡ empty_outlet (record { exchange = exchange; place = place; consumer = consumer; types = types.now; size = size })) }
    {
        let current = Rows::new(alloc, types)?;
        let closing = Rows::new(alloc, types)?;
        Ok(Lane {
            alloc,
            exchange,
            place,
            consumer,
            size,
            current,
            ready: VecDeque::new(alloc),
            closing: Some(closing),
        })
    }

    // Makes a packet of these rows.
    fn push(&mut self, rows: Rows) -> Result<(), AllocError>
        requires some { 0 < length rows.rows }
        requires few { length rows.rows ≤ max_packet_rows }
        requires types { rows.types ≡ self.old.way.types }
        requires open { self.old.closed ≡ false }
        ensures ok { OnOk result (self.new.ready ≡ self.old.ready ++ parcel_at self.old.way rows.rows ∷ []) }
        ensures way { self.new.way ≡ self.old.way }
        ensures current { self.new.current ≡ self.old.current }
        ensures closed { self.new.closed ≡ self.old.closed }
    {
        let packet = Packet::of_rows(self.exchange, self.place, self.consumer, rows);
        match self.ready.push_back(packet) {
            Ok(()) => return Ok(()),
            Err(_) => return Err(AllocError),
        }
    }

    // Adds rows of `chunk` from position `from` up to `end`: all of them, or as many as fill the current packet, which is then ready.
    // Returns the position of the first row that is left.
    fn fill(&mut self, chunk: &Chunk, from: usize, end: usize) -> Result<usize, AllocError>
        requires types { chunk.now.types ≡ self.old.way.types }
        requires open { self.old.closed ≡ false }
        requires some { from < end }
        requires there { end ≤ length chunk.now.rows }
        ensures next { IfOk result (λ to. from < to) }
        ensures within { IfOk result (λ to. to ≤ end) }
        ensures ok { IfOk result (λ to. Cuts self.old.way self.old.current self.old.ready (slice_range chunk.now.rows from to) self.new.current self.new.ready) }
        ensures way { self.new.way ≡ self.old.way }
        ensures closed { self.new.closed ≡ self.old.closed }
    {
        let room = self.size - self.current.len();
        if end - from < room {
            let rest = chunk.slice(self.alloc, from, end)?;
            self.current.push(rest)?;
            return Ok(end);
        }
        let to = from + room;
        let part = chunk.slice(self.alloc, from, to)?;
        let mut full = self.current.take(self.alloc)?;
        full.push(part)?;
        self.push(full)?;
        Ok(to)
    }

    // Adds the rows of a chunk from position `start` up to `end`.
    fn fill_part(&mut self, chunk: &Chunk, start: usize, end: usize) -> Result<(), AllocError>
        requires types { chunk.now.types ≡ self.old.way.types }
        requires open { self.old.closed ≡ false }
        requires order { start ≤ end }
        requires there { end ≤ length chunk.now.rows }
        ensures ok { OnOk result (Cuts self.old.way self.old.current self.old.ready (slice_range chunk.now.rows start end) self.new.current self.new.ready) }
        ensures way { self.new.way ≡ self.old.way }
        ensures closed { self.new.closed ≡ self.old.closed }
    {
        let mut from = start;
        while from < end {
            from = self.fill(chunk, from, end)?;
        }
        Ok(())
    }

    // Adds all rows of chunks.
    fn fill_each(&mut self, chunks: &[Chunk]) -> Result<(), AllocError>
        requires types { All (λ c. c.types ≡ self.old.way.types) chunks.now }
        requires open { self.old.closed ≡ false }
        ensures ok { OnOk result (Cuts self.old.way self.old.current self.old.ready (all_rows chunks.now) self.new.current self.new.ready) }
        ensures way { self.new.way ≡ self.old.way }
        ensures closed { self.new.closed ≡ self.old.closed }
    {
        for i in 0..chunks.len() {
            let chunk = &chunks[i];
            self.fill_part(chunk, 0, chunk.len())?;
        }
        Ok(())
    }

    /// Adds rows; no cell is copied. If none are at hand and these are just one packet, they become it as they are. After an `Err` some of them may be lost.
    pub fn add(&mut self, rows: Rows) -> Result<(), AllocError>
        requires types { rows.types ≡ self.old.way.types }
        requires open { self.old.closed ≡ false }
        ensures ok { OnOk result (Cuts self.old.way self.old.current self.old.ready rows.rows self.new.current self.new.ready) }
        ensures way { self.new.way ≡ self.old.way }
        ensures closed { self.new.closed ≡ self.old.closed }
    {
        if self.current.len() == 0 && rows.len() == self.size {
            self.push(rows)?;
            return Ok(());
        }
        if rows.len() < self.size - self.current.len() {
            self.current.append(rows)?;
            return Ok(());
        }
        self.fill_each(rows.chunks())
    }

    /// Adds the rows of these from position `from` up to `to`; no cell is copied. After an `Err` some of them may be lost.
    pub fn add_part(&mut self, rows: &Rows, from: usize, to: usize) -> Result<(), AllocError>
        requires order { from ≤ to }
        requires there { to ≤ length rows.now.rows }
        requires types { rows.now.types ≡ self.old.way.types }
        requires open { self.old.closed ≡ false }
        ensures ok { OnOk result (Cuts self.old.way self.old.current self.old.ready (slice_range rows.now.rows from to) self.new.current self.new.ready) }
        ensures way { self.new.way ≡ self.old.way }
        ensures closed { self.new.closed ≡ self.old.closed }
    {
        let chunks = rows.chunks();
        if chunks.len() == 1 {
            // mostly so: the rows are those of the chunk, and are cut once
            return self.fill_part(&chunks[0], from, to);
        }
        let part = rows.slice(self.alloc, from, to)?;
        self.add(part)
    }

    /// Makes a packet of the rows at hand, if there are any.
    pub fn finish(&mut self) -> Result<(), AllocError>
        requires { self.old.closed ≡ false }
        ensures ok { OnOk result (CutsRest self.old.way self.old.current self.old.ready self.new.ready) }
        ensures none { OnOk result (self.new.current ≡ []) }
        ensures way { self.new.way ≡ self.old.way }
        ensures closed { self.new.closed ≡ self.old.closed }
    {
        if self.current.len() == 0 {
            return Ok(());
        }
        let rest = self.current.take(self.alloc)?;
        self.push(rest)?;
        Ok(())
    }

    /// Drops all that it holds.
    pub fn clear(&mut self)
        ensures current { self.new.current ≡ [] }
        ensures ready { self.new.ready ≡ [] }
        ensures way { self.new.way ≡ self.old.way }
        ensures closed { self.new.closed ≡ self.old.closed }
    {
        self.current.clear();
        self.ready.clear();
    }

    /// The next packet of rows that waits.
    pub fn next_packet(&mut self) -> Option<Packet>
        ensures some { IfSome result (λ p. self.old.ready ≡ p ∷ self.new.ready) }
        ensures of_rows { IfSome result (λ p. closes p.content ≡ false) }
        ensures of_some { IfSome result (λ p. 0 < length (content_rows p.content)) }
        ensures open { IfSome result (λ _. self.old.closed ≡ false) }
        ensures none { IfNone result (self.old.ready ≡ []) }
        ensures same { IfNone result (self.new ≡ self.old) }
        ensures current { self.new.current ≡ self.old.current }
        ensures way { self.new.way ≡ self.old.way }
        ensures closed { self.new.closed ≡ self.old.closed }
    {
        self.ready.pop_front()
    }

    /// The packet that closes the stream, once. It comes when nothing waits.
    pub fn close(&mut self, ending: StreamEnd) -> Option<Packet>
        requires { self.old.ready ≡ [] }
        ensures some { IfSome result (λ p. p ≡ parcel_of self.old.way (ending_content ending)) }
        ensures open { IfSome result (λ _. self.old.closed ≡ false) }
        ensures none { IfNone result (self.old.closed ≡ true) }
        ensures same { IfNone result (self.new ≡ self.old) }
        ensures closed { self.new.closed ≡ true }
        ensures current { self.new.current ≡ self.old.current }
        ensures ready { self.new.ready ≡ self.old.ready }
        ensures way { self.new.way ≡ self.old.way }
    {
        let none = self.closing.take()?;
        Some(Packet::closing(self.exchange, self.place, self.consumer, ending, none))
    }
}
