//! The rows of every table, for a statement that is repeated over them.

/// Repeats a statement over the rows of a table, in the order in which they stand:
/// `each_field!(market, field => { .. })`. With the table's name alone it is the array of the rows.
#[macro_export]
macro_rules! each_field {
    ([$($row:path),* $(,)?]) => {
        [$($row),*]
    };
    ([$($row:path),* $(,)?], $field:ident => $statement:block) => {
        $({
            let $field = $row;
            $statement
        })*
    };
    (market $($then:tt)*) => {
        $crate::each_field!([
            $crate::market::SERUM,
            $crate::market::ACCOUNT_FLAGS,
            $crate::market::OWN_ADDRESS,
            $crate::market::VAULT_SIGNER_NONCE,
            $crate::market::COIN_MINT,
            $crate::market::PC_MINT,
            $crate::market::COIN_VAULT,
            $crate::market::COIN_DEPOSITS_TOTAL,
            $crate::market::COIN_FEES_ACCRUED,
            $crate::market::PC_VAULT,
            $crate::market::PC_DEPOSITS_TOTAL,
            $crate::market::PC_FEES_ACCRUED,
            $crate::market::PC_DUST_THRESHOLD,
            $crate::market::REQ_Q,
            $crate::market::EVENT_Q,
            $crate::market::BIDS,
            $crate::market::ASKS,
            $crate::market::COIN_LOT_SIZE,
            $crate::market::PC_LOT_SIZE,
            $crate::market::FEE_RATE_BPS,
            $crate::market::REFERRER_REBATES_ACCRUED,
            $crate::market::PADDING,
        ] $($then)*)
    };
    (open_orders $($then:tt)*) => {
        $crate::each_field!([
            $crate::open_orders::SERUM,
            $crate::open_orders::ACCOUNT_FLAGS,
            $crate::open_orders::MARKET,
            $crate::open_orders::OWNER,
            $crate::open_orders::NATIVE_COIN_FREE,
            $crate::open_orders::NATIVE_COIN_TOTAL,
            $crate::open_orders::NATIVE_PC_FREE,
            $crate::open_orders::NATIVE_PC_TOTAL,
            $crate::open_orders::FREE_SLOT_BITS,
            $crate::open_orders::IS_BID_BITS,
            $crate::open_orders::ORDERS,
            $crate::open_orders::CLIENT_ORDER_IDS,
            $crate::open_orders::REFERRER_REBATES_ACCRUED,
            $crate::open_orders::PADDING,
        ] $($then)*)
    };
    (request_queue $($then:tt)*) => {
        $crate::each_field!([
            $crate::request_queue::SERUM,
            $crate::request_queue::ACCOUNT_FLAGS,
            $crate::request_queue::HEAD,
            $crate::request_queue::COUNT,
            $crate::request_queue::NEXT_SEQ_NUM,
        ] $($then)*)
    };
    (event_queue $($then:tt)*) => {
        $crate::each_field!([
            $crate::event_queue::SERUM,
            $crate::event_queue::ACCOUNT_FLAGS,
            $crate::event_queue::HEAD,
            $crate::event_queue::COUNT,
            $crate::event_queue::SEQ_NUM,
        ] $($then)*)
    };
    (event $($then:tt)*) => {
        $crate::each_field!([
            $crate::event::FLAGS,
            $crate::event::OWNER_SLOT,
            $crate::event::FEE_TIER,
            $crate::event::PADDING,
            $crate::event::NATIVE_QTY_RELEASED,
            $crate::event::NATIVE_QTY_PAID,
            $crate::event::NATIVE_FEE_OR_REBATE,
            $crate::event::ORDER_ID,
            $crate::event::OWNER,
            $crate::event::CLIENT_ORDER_ID,
        ] $($then)*)
    };
    (slab $($then:tt)*) => {
        $crate::each_field!([
            $crate::slab::SERUM,
            $crate::slab::ACCOUNT_FLAGS,
            $crate::slab::BUMP_INDEX,
            $crate::slab::FREE_LIST_LEN,
            $crate::slab::FREE_LIST_HEAD,
            $crate::slab::ROOT_NODE,
            $crate::slab::LEAF_COUNT,
        ] $($then)*)
    };
    (inner_node $($then:tt)*) => {
        $crate::each_field!([
            $crate::inner_node::TAG,
            $crate::inner_node::PREFIX_LEN,
            $crate::inner_node::KEY,
            $crate::inner_node::FIRST_CHILD,
            $crate::inner_node::SECOND_CHILD,
            $crate::inner_node::PADDING,
        ] $($then)*)
    };
    (leaf_node $($then:tt)*) => {
        $crate::each_field!([
            $crate::leaf_node::TAG,
            $crate::leaf_node::OWNER_SLOT,
            $crate::leaf_node::FEE_TIER,
            $crate::leaf_node::PADDING,
            $crate::leaf_node::KEY,
            $crate::leaf_node::OWNER,
            $crate::leaf_node::QUANTITY,
            $crate::leaf_node::CLIENT_ORDER_ID,
        ] $($then)*)
    };
    (free_node $($then:tt)*) => {
        $crate::each_field!([
            $crate::free_node::TAG,
            $crate::free_node::NEXT,
            $crate::free_node::PADDING,
        ] $($then)*)
    };
    (token_account $($then:tt)*) => {
        $crate::each_field!([
            $crate::token_account::MINT,
            $crate::token_account::OWNER,
            $crate::token_account::AMOUNT,
            $crate::token_account::DELEGATE,
            $crate::token_account::STATE,
            $crate::token_account::IS_NATIVE,
            $crate::token_account::DELEGATED_AMOUNT,
            $crate::token_account::CLOSE_AUTHORITY,
        ] $($then)*)
    };
    (mint $($then:tt)*) => {
        $crate::each_field!([
            $crate::mint::MINT_AUTHORITY,
            $crate::mint::SUPPLY,
            $crate::mint::DECIMALS,
            $crate::mint::IS_INITIALIZED,
            $crate::mint::FREEZE_AUTHORITY,
        ] $($then)*)
    };
}
