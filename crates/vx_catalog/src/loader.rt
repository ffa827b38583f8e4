//! A relation's rows from its text.

ghost use Rattle.std.specs.Prelude.{◌≡◌, ◌≢◌, ◌⊎◌, ◌<◌, ◌≤◌, ◌-◌, length, map, true, false, Err, IfOk, IfSome, IsErrOf, IfErr};
ghost use Rattle.csv.specs.Reading.{source_of};
ghost use Rattle.std.specs.Ordering.{is_lt};
ghost use Rattle.std.specs.List.{AllByRecursion, range_with_len};
ghost use Rattle.vx_rows_values.specs.Types.{Fits};
ghost use Rattle.vx_rows.specs.View.{row, AreColumns};
ghost use Rattle.vx_rows_values.specs.Order.{compare_on, order_columns};
ghost use Rattle.vx_catalog_relations.specs.Relation.{Meets};
ghost use Rattle.vx_catalog_relations.specs.Catalog.{relation_at, IsRelation};
ghost use Rattle.vx_catalog.specs.Database.{IsLoaded};
ghost use Rattle.vx_catalog.specs.Meaning.{LoadLaw};
ghost use Rattle.vx_catalog.specs.Counting.{StaysKnown};
ghost use Rattle.vx_catalog.specs.Records.{IsPlain, rest_of};
ghost use Rattle.vx_rows_values.specs.Types.{type_at};
ghost use Rattle.vx_rows_values.specs.Values.{pick};
ghost use Rattle.vx_rows_values.specs.Keys.{first_clash};
ghost use Rattle.vx_catalog.specs.Loading.{in_place, Gives, under_header, tested, keys_kept, order_kept, first_fall, load_of};
ghost use Rattle.vx_rows_values.specs.Limits.{max_rows};

use crate::counted::{Lent, LimitedReader, Origin};
use crate::fault::LoadFault;
use crate::key_numbers::{first_number_fall, key_numbers};
use crate::record::{is_header, next_record, read_rows};
use csv::{ByteRecord, Reader, ReaderBuilder};
use std::alloc::{AllocError, Global};
use std::io::Read;
use std::marker::{Brand, Model};
use vx_catalog_bytes::ByteIn;
use vx_catalog_relations::{Catalog, Relation};
use vx_rows::{NumbersRef, Table, compare_on};
use vx_rows_values::{ColType, OrderEntry};
use vx_rows_views::Rows;

// The rows under a text's header.
fn read_table<S: Read>(
    alloc: Global,
    relation: &Relation,
    reader: &mut Reader<S>,
) -> Result<Table, LoadFault>
    requires { IsPlain reader.old }
    ensures types { IfOk result (λ r. r.types ≡ relation.now.types) }
    ensures fit { IfOk result (λ r. AllByRecursion (Fits r.types) r.rows) }
    ensures rows { IfSome (rest_of S.remaining reader.old) (λ records. Gives (λ r. r.rows) result (under_header relation.now.names relation.now.types records)) }
    ensures few { IfOk result (λ r. length r.rows ≤ max_rows) }
    ensures known { (result ≡ Err LoadFault.NoMemory) ⊎ StaysKnown (source_of S.remaining reader.old) (source_of S.remaining reader.new) }
    ensures own { IfErr result (λ e. e ≢ LoadFault.ReadFailed) }
{
    let mut header = ByteRecord::new(alloc);
    if !next_record(reader, &mut header)? {
        return Err(LoadFault::HeaderMismatch);
    }
    if !is_header(relation.names(), &header) {
        return Err(LoadFault::HeaderMismatch);
    }
    read_rows(alloc, relation.types(), reader)
}

/// The rows under a text's header, in one piece. It also fails with NoMemory if the source underneath failed.
pub fn read_text<S: Read>(
    alloc: Global,
    relation: &Relation,
    reader: &mut Reader<S>,
) -> Result<Rows, LoadFault>
    requires { IsPlain reader.old }
    ensures types { IfOk result (λ r. r.types ≡ relation.now.types) }
    ensures fit { IfOk result (λ r. AllByRecursion (Fits r.types) r.rows) }
    ensures rows { IfSome (rest_of S.remaining reader.old) (λ records. Gives (λ r. r.rows) result (under_header relation.now.names relation.now.types records)) }
    ensures few { IfOk result (λ r. length r.rows ≤ max_rows) }
    ensures known { (result ≡ Err LoadFault.NoMemory) ⊎ StaysKnown (source_of S.remaining reader.old) (source_of S.remaining reader.new) }
    ensures own { IfErr result (λ e. e ≢ LoadFault.ReadFailed) }
{
    match read_table(alloc, relation, reader) {
        Ok(table) => Ok(Rows::of_table(alloc, table)?),
        Err(fault) => Err(fault),
    }
}

// The first row that is smaller than the one before it.
#[tactic(auto, unfolding(crate::specs::Loading::first_fall))]
fn first_fall(rows: &Table, order: &[OrderEntry]) -> Option<usize>
    requires { AreColumns (length rows.now.types) (order_columns order.now) }
    ensures { result ≡ first_fall order.now rows.now.rows }
{
    if let [entry] = order {
        if let Some(numbers) = rows.numbers(entry.column) {
            // `columns_of` makes a table of one column of numbers, which it keeps in 64 bits
            if let NumbersRef::Wide(wide) = numbers.view() {
                return first_number_fall(&wide[..rows.len()], entry.falling);
            }
        }
    }
    for i in 1..rows.len() {
        if compare_on(order, rows, i, rows, i - 1).is_lt() {
            return Some(i);
        }
    }
    None
}

// Some columns of rows, in one table: so a loop goes to any two rows at once.
fn columns_of(alloc: Global, rows: &Rows, columns: &[usize]) -> Result<Table, AllocError>
    requires { AreColumns (length rows.now.types) columns.now }
    ensures types { IfOk result (λ t. t.types ≡ map (type_at rows.now.types) columns.now) }
    ensures rows { IfOk result (λ t. t.rows ≡ map (pick columns.now) rows.now.rows) }
{
    // the numbers of one column are read where they lie, and not copied cell by cell
    if columns.len() == 1 && rows.types()[columns[0]] == ColType::Int {
        return Table::of_numbers(alloc, key_numbers(alloc, rows, columns[0])?);
    }
    rows.project(alloc, columns)?.gathered(alloc)
}

// The places of so many columns.
fn places_of(alloc: Global, count: usize) -> Result<Vec<usize>, AllocError>
    ensures { IfOk result (λ v. v.items ≡ range_with_len 0 count) }
{
    let mut places = Vec::new(alloc);
    for place in 0..count {
        places.push(place)?;
    }
    Ok(places)
}

// The columns of an order.
fn order_columns(alloc: Global, order: &[OrderEntry]) -> Result<Vec<usize>, AllocError>
    ensures { IfOk result (λ v. v.items ≡ order_columns order.now) }
{
    order.iter().map(|entry| entry.column).collect(alloc)
}

// An order of the columns that another one names, each at the place at which it is named.
fn in_place(alloc: Global, order: &[OrderEntry]) -> Result<Vec<OrderEntry>, AllocError>
    ensures { IfOk result (λ v. v.items ≡ in_place order.now) }
{
    let mut found = Vec::new(alloc);
    for (column, entry) in order.iter().enumerate() {
        found.push(OrderEntry {
            column,
            falling: entry.falling,
        })?;
    }
    Ok(found)
}

// Tests that no row is smaller than the one before it.
fn test_order(alloc: Global, rows: &Rows, order: &[OrderEntry]) -> Result<(), LoadFault>
    requires { AreColumns (length rows.now.types) (order_columns order.now) }
    ensures { Gives (λ _. rows.now.rows) result (order_kept order.now rows.now.rows) }
{
    let columns = order_columns(alloc, order)?;
    let table = columns_of(alloc, rows, columns.as_slice())?;
    match first_fall(&table, in_place(alloc, order)?.as_slice()) {
        Some(row) => Err(LoadFault::OrderBroken { row }),
        None => Ok(()),
    }
}

// The first two rows that agree on these columns.
fn first_clash(
    alloc: Global,
    rows: &Rows,
    columns: &[usize],
) -> Result<Option<(usize, usize)>, AllocError>
    requires { AreColumns (length rows.now.types) columns.now }
    ensures { IfOk result (λ o. o ≡ first_clash columns.now rows.now.rows) }
{
    let table = columns_of(alloc, rows, columns)?;
    let places = places_of(alloc, columns.len())?;
    table.first_key_clash(alloc, places.as_slice())
}

// Tests the keys of a relation in declared order.
fn test_keys(alloc: Global, rows: &Rows, relation: &Relation) -> Result<(), LoadFault>
    requires types { length rows.now.types ≡ length relation.now.names }
    requires relation { IsRelation relation.now }
    ensures { Gives (λ _. rows.now.rows) result (keys_kept 0 relation.now.keys rows.now.rows) }
{
    for key in 0..relation.key_count() {
        let clash = first_clash(alloc, rows, relation.key(key))?;
        match clash {
            Some((first, second)) => return Err(LoadFault::KeyBroken { key, first, second }),
            None => {}
        }
    }
    Ok(())
}

/// The rows of a relation, if they meet its keys and then its order.
pub fn test_rows(alloc: Global, relation: &Relation, rows: Rows) -> Result<Rows, LoadFault>
    requires relation { IsRelation relation.now }
    requires types { rows.types ≡ relation.now.types }
    requires fit { AllByRecursion (Fits rows.types) rows.rows }
    ensures same { IfOk result (λ r. r ≡ rows) }
    ensures rows { Gives (λ r. r.rows) result (tested relation.now rows.rows) }
    ensures meets { IfOk result (λ r. Meets relation.now r.rows) }
{
    test_keys(alloc, &rows, relation)?;
    test_order(alloc, &rows, relation.order())?;
    Ok(rows)
}

// Loads the rows of a relation from a port into `loaded`, and returns the port: otherwise nothing would be known of it.
// All bytes of the port are read before any error but NoMemory is returned. A failure of the port goes before whatever
// was loaded; the port itself says whether it failed.
fn load_text<'p, R: ByteIn, T: Origin>(
    alloc: Global,
    relation: &Relation,
    port: &'p mut R,
    loaded: &mut Result<Rows, LoadFault>,
) -> Lent<'p, R>
    requires text { R.remaining port.now ≡ T.text }
    requires whole { T.is_reliable ≡ true → (R.is_reliable port.now ≡ true) × (R.has_failed port.now ≡ false) }
    requires same { port.ghost_name ≡ T.name }
    requires relation { IsRelation relation.now }
    ensures types { IfOk loaded.new (λ r. r.types ≡ relation.now.types) }
    ensures rows { IfSome T.text (λ bytes. Gives (λ r. r.rows) loaded.new (load_of relation.now bytes)) }
    ensures meets { IfOk loaded.new (λ r. Meets relation.now r.rows) }
    ensures few { IfOk loaded.new (λ r. length r.rows ≤ max_rows) }
    ensures own { IfErr loaded.new (λ e. e ≢ LoadFault.ReadFailed) }
    ensures same { result.port.ghost_name ≡ port.entry.ghost_name }
    ensures reliable { T.is_reliable ≡ true → R.has_failed result.port.now ≡ false }
{
    let mut reader = ReaderBuilder::new()
        .has_headers(false)
        .flexible(true)
        .from_reader(alloc, LimitedReader::<R, T>::new(port));
    let read = read_text(alloc, relation, &mut reader);
    let mut source = reader.into_inner();
    let tested = match source.settle(read) {
        Ok(rows) => test_rows(alloc, relation, rows),
        Err(fault) => Err(fault),
    };
    *loaded = tested;
    source.into_lent()
}

/// Rows of a relation of a catalog, 100,000,000 at most, which meet all that it declares of the relation.
#[derive(Drop)]
pub struct Loaded {
    catalog: Catalog,
    relation: usize,
    rows: Rows,
}

impl Model for Loaded {
    ghost use Rattle.std.specs.Prelude.{◌≡◌};
    ghost use Rattle.vx_catalog_relations.specs.Relation.{Meets};
    ghost use Rattle.vx_catalog_relations.specs.Catalog.{relation_at};
    ghost use Rattle.vx_catalog.specs.Database.{LoadedRows, IsLoaded};

    ghost Value = { LoadedRows };

    ghost view = { λ l. record { catalog = l.catalog; relation = l.relation; rows = l.rows.rows } };

    ghost invariant = { λ l. IsLoaded l.catalog l.relation l.rows };
}

impl Loaded {
    /// Rows of a relation of a catalog, which meet it. Whoever read them has tested that, as `test_rows` does.
    pub fn new(catalog: &Catalog, relation: usize, rows: Rows) -> Result<Loaded, AllocError>
        requires there { relation < length catalog.now }
        requires types { rows.types ≡ (relation_at catalog.now relation).types }
        requires meets { Meets (relation_at catalog.now relation) rows.rows }
        requires few { length rows.rows ≤ max_rows }
        ensures catalog { IfOk result (λ l. l.catalog ≡ catalog.now) }
        ensures relation { IfOk result (λ l. l.relation ≡ relation) }
        ensures rows { IfOk result (λ l. l.rows ≡ rows.rows) }
    {
        Ok(Loaded {
            catalog: catalog.share()?,
            relation,
            rows,
        })
    }

    /// The catalog of the relation.
    pub fn catalog(&self) -> &Catalog
        ensures { result.now ≡ self.now.catalog }
    {
        &self.catalog
    }

    /// The relation's number in its catalog.
    pub fn relation(&self) -> usize
        ensures number { result ≡ self.now.relation }
        ensures there { result < length self.now.catalog }
    {
        self.relation
    }

    /// The rows of the relation.
    pub fn rows(&self) -> &Rows
        ensures types { result.now.types ≡ (relation_at self.now.catalog self.now.relation).types }
        ensures rows { result.now.rows ≡ self.now.rows }
        ensures meets { Meets (relation_at self.now.catalog self.now.relation) result.now.rows }
        ensures few { length result.now.rows ≤ max_rows }
    {
        &self.rows
    }

    /// The rows alone.
    pub(crate) fn into_rows(self) -> Rows
        ensures loaded { IsLoaded self.catalog self.relation result }
        ensures rows { result.rows ≡ self.rows }
    {
        self.rows
    }
}

/// Loads relations from texts in CSV.
#[derive(Clone, Copy)]
pub struct Loader;

impl Loader {
    /// The rows of a relation of a catalog, from all bytes of a reader.
    ///
    /// A failure of the reader, or more than 2^40 bytes of it, whichever comes first, goes before all errors in the text, which is
    /// read to its end. Then come the header, each row from its first field on, the keys in declared order, and the order of the
    /// rows. Records are read as the bytes come. Only running out of memory is reported without reading the rest.
    pub fn load<R: ByteIn>(
        alloc: Global,
        catalog: &Catalog,
        relation: usize,
        reader: &mut R,
    ) -> Result<Loaded, LoadFault>
        requires { relation < length catalog.now }

        // Of a reader whose bytes are known and that did not fail: these rows, or the first error.
        ensures known { R.has_failed reader.new ≡ false → IfSome (R.remaining reader.old) (λ bytes. Gives (λ l. l.rows) result (load_of (relation_at catalog.now relation) bytes)) }
        ensures catalog { IfOk result (λ l. l.catalog ≡ catalog.now) }
        ensures relation { IfOk result (λ l. l.relation ≡ relation) }

        // C10 comes only where the reader failed, and then nothing else does.
        ensures failed { IsErrOf result LoadFault.ReadFailed → R.has_failed reader.new ≡ true }
        ensures broken { R.has_failed reader.new ≡ true → IsErrOf result LoadFault.ReadFailed }

        // A reader that is known never to fail has not failed.
        ensures reliable { R.is_reliable reader.old ≡ true → R.has_failed reader.old ≡ false → R.has_failed reader.new ≡ false }
    {
        let mut read = Err(LoadFault::NoMemory);
        let lent = load_text::<R, Brand>(alloc, catalog.get(relation), reader, &mut read);
        if lent.port.failed() {
            return Err(LoadFault::ReadFailed);
        }
        Ok(Loaded::new(catalog, relation, read?)?)
    }
}

/// The law of loading: rows are loaded of bytes exactly where the bytes are a text of the relation with these rows.
/// It does nothing.
pub fn texts_are_loaded_exactly()
    ensures { LoadLaw }
{}
