// An account's words as they are.
ghost use Rattle.records.specs.Encoding.{account_at};
ghost use Rattle.tables.specs.Changes.{AccountIn};
ghost use Rattle.plain_rows.specs.Alike.{AlikeAccount};

use super::bits;
use records::Account;
use table_accounts::account_by;

// Account i, with its words as they are.
pub fn plain_account(accounts: &[i64], i: usize) -> Account
    requires { AccountIn accounts.now i }
    ensures { AlikeAccount result (account_at accounts.now i) }
{
    account_by(accounts, i, bits)
}
