// The closing part of the listing, written to a text: a line for each used row and one for each used account, each part with its
// names before it.
#![tactic(auto)]

ghost use Rattle.std.specs.Prelude.{◌≡◌, true, ◌++◌, ◌+◌, ◌*◌, ◌≤◌, length};
ghost use Rattle.lists.specs.Lists.{gather};
ghost use Rattle.records.specs.Encoding.{accounts_of};
ghost use Rattle.decimal.specs.Decimal.{text_of, date_text};
ghost use Rattle.records.specs.Limits.{final_day};
ghost use Rattle.rules.specs.Book.{Book, sources, debits, minus};
ghost use Rattle.rules.specs.Tables.{accounts_in, rows_used, book_of, sound_tables};
ghost use Rattle.table_rows.specs.UsedRows.{rows_in};
ghost use Rattle.listing_rules.specs.Texts.{field, line, row_text, account_text, book_text};
ghost use Rattle.listing_rules.specs.Sizes.{most_row_bytes, most_day_bytes, most_account_bytes, book_names_bytes, most_field_bytes};
ghost use Rattle.listing_book.specs.Listed.{Dated};
ghost use Rattle.lent.specs.Lent.{lent};

use balances::summable::SummableRows;
use balances::sums_of;
use decimal::Text;
use lent::Tables;
use listing_text::write_field;
use records::codes::STATE_UNUSED;
use records::{Account, Row};
use table_accounts::read_account;
use table_rows::{Rows, read_row};

// ---- rows

// Writes the date of a day and the comma that ends its field.
fn write_day_field<const N: usize>(out: &mut Text<N>, day: u64)
    requires { (length out.old + most_day_bytes ≤ N) × (1 ≤ day) × (day ≤ final_day) }
    ensures text { out.new ≡ out.old ++ field (date_text day) }
    ensures short { length out.new ≤ length out.old + most_day_bytes }
{
    out.push_date(day);
    out.push(b',');
}

// Writes the line of row n.
fn write_row<const N: usize>(out: &mut Text<N>, n: u64, r: Row)
    requires { (length out.old + most_row_bytes ≤ N) × (1 ≤ r.day) × (r.day ≤ final_day) }
    ensures text { out.new ≡ out.old ++ row_text n r }
    ensures short { length out.new ≤ length out.old + most_row_bytes }
{
    write_field(out, n, b',');
    write_field(out, r.account, b',');
    write_field(out, r.kind, b',');
    write_day_field(out, r.day);
    write_field(out, r.amount, b',');
    write_field(out, r.settled, b'\n');
}

// Writes a line for each used row.
fn write_rows<const N: usize>(out: &mut Text<N>, rows: &Rows)
    requires { (length out.old + rows.now.used * most_row_bytes ≤ N)
        × Dated rows.now.journal.now rows.now.used }
    ensures text { out.new ≡ out.old ++ gather row_text (rows_in rows.now) }
    ensures short { length out.new ≤ length out.old + rows.now.used * most_row_bytes }
{
    for i in 0..rows.used {
        write_row(out, i as u64 + 1, read_row(rows.journal, i));
    }
}

// ---- accounts

// Writes the balance of account n, its sources less its debits, as the last field of a line.
fn write_balance<const N: usize>(out: &mut Text<N>, summable: SummableRows, n: u64)
    requires { length out.old + most_field_bytes ≤ N }
    ensures text { out.new ≡ out.old ++ line (text_of
        (minus (sources (rows_in summable.entry.rows) n) (debits (rows_in summable.entry.rows) n))) }
    ensures short { length out.new ≤ length out.old + most_field_bytes }
{
    let s = sums_of(summable, n);
    out.push_number(s.balance());
    out.push(b'\n');
}

// Writes the line of account n in a book with these rows, nothing of an unused one.
fn write_account<const N: usize>(out: &mut Text<N>, summable: SummableRows, n: u64, x: Account)
    requires { length out.old + most_account_bytes ≤ N }
    ensures text { (b : Book) → b.rows ≡ rows_in summable.entry.rows → out.new ≡ out.old ++ account_text b n x }
    ensures short { length out.new ≤ length out.old + most_account_bytes }
{
    if x.state == STATE_UNUSED {
        return;
    }
    write_field(out, n, b',');
    write_field(out, x.state, b',');
    write_balance(out, summable, n);
}

// Writes a line for each used account of the tables, in a book with these rows.
fn write_accounts<const N: usize>(out: &mut Text<N>, t: Tables, summable: SummableRows)
    requires { length out.old + accounts_in (lent t) * most_account_bytes ≤ N }
    ensures text { (b : Book) → b.rows ≡ rows_in summable.entry.rows
        → out.new ≡ out.old ++ gather (account_text b) (accounts_of t.entry.accounts.now (accounts_in (lent t.entry))) }
    ensures short { length out.new ≤ length out.old + accounts_in (lent t.entry) * most_account_bytes }
{
    let count = t.count();
    for i in 0..count {
        write_account(out, summable, i as u64 + 1, read_account(t.accounts, i));
    }
}

// ---- the book

// Writes the rows and the used accounts of a sound book, each part with its names before it.
pub fn write_book<const N: usize>(t: Tables, out: &mut Text<N>)
    requires sound { sound_tables (lent t) ≡ true }
    requires room { length out.old + book_names_bytes
        + rows_used (lent t) * most_row_bytes
        + accounts_in (lent t) * most_account_bytes ≤ N }
    ensures { out.new ≡ out.old ++ book_text (book_of (lent t.entry)) }
{
    let rows = t.rows();
    out.extend_from_slice(b"row,account,kind,date,amount,settled\n");
    write_rows(out, &rows);
    out.extend_from_slice(b"account,state,balance\n");
    write_accounts(out, t, SummableRows { rows });
}
