//! Texts, and the trees or the first faults that they have.

use crate::trees::push_statement;
use fixtures::{Reporting, differences, drop_tree, spelt};
use sql_parse::{ParseFault, ParsedStatement, parse, parse_bytes};
use std::alloc::{AllocError, Global};
use std::fmt::Write;
use std::str;

/// As what a text is handed over.
#[derive(Clone, Copy)]
enum Handed {
    Bytes,
    /// As bytes where it is no text.
    Text,
}

fn parsed(alloc: Global, handed: Handed, bytes: &[u8]) -> Result<ParsedStatement, ParseFault> {
    match (handed, str::from_utf8(bytes)) {
        (Handed::Text, Ok(text)) => parse(alloc, text),
        (_, _) => parse_bytes(alloc, bytes),
    }
}

fn push_tree(
    alloc: Global,
    reported: &mut String,
    tree: &Result<ParsedStatement, ParseFault>,
) -> Result<(), AllocError> {
    match tree {
        Ok(parsed) => push_statement(alloc, reported, parsed.tree()),
        Err(fault) => write!(reported, "{fault}"),
    }
}

/// Reports the tree with the places of its parts, or the refusal. The text is spelt.
#[derive(Drop)]
struct Trees {
    handed: Handed,
}

impl Reporting for Trees {
    fn report(&self, alloc: Global, text: &str, reported: &mut String) -> Result<(), AllocError> {
        let bytes = spelt(alloc, text)?;
        let tree = parsed(alloc, self.handed, bytes.as_slice());
        let pushed = push_tree(alloc, reported, &tree);
        drop_tree(tree);
        pushed
    }
}

/// Statements have trees.
const STATEMENTS: &str = "SELECT id FROM emp => {id@7 , emp@15}
select ID , Pay\tFROM\r~Emp; => {id@7 pay@12 , emp@22}
~ SELECT _a1,b FROM T_2 ; \r~ => {_a1@9 b@13 , t_2@20}
SELECT a FROM t WHERE b = 1 => {a@7 , t@14 WHERE b@22 =@24 1}
sElEcT a fRoM t wHeRe B<>nUlL; => {a@7 , t@14 WHERE b@22 <>@23 null}
SELECT * FROM emp => {*@7, emp@14}
select distinct a, T.b as x, c Y from t; => {DISTINCT a@16 t@19.b@21 AS x@26 c@29 AS y@31 , t@38}
SELECT COUNT(*), COUNT(a), SUM(a) s, MIN(a), MAX(t.a) FROM t => {count@7(*) count@17(a@23) sum@27(a@31) AS s@34 min@37(a@41) max@45(t@49.a@51) , t@59}
SELECT a FROM t x, u AS y, v => {a@7 , t@14 AS x@16, u@19 AS y@24, v@27}
SELECT a FROM t JOIN u ON a = b INNER JOIN v ON c < d, w => {a@7 , t@14 JOIN u@21 ON a@26 =@28 b@30 JOIN v@43 ON c@48 <@50 d@52, w@55}
SELECT a FROM t LEFT JOIN u y ON a = b LEFT OUTER JOIN v ON NOT (c IS NULL) => {a@7 , t@14 LEFT JOIN u@26 AS y@28 ON a@33 =@35 b@37 LEFT JOIN v@55 ON NOT c@65 IS NULL}
SELECT a FROM t GROUP BY a, t.b => {a@7 , t@14 BY a@25 BY t@28.b@30}
SELECT a FROM t ORDER BY a, t.b DESC, c ASC => {a@7 , t@14} ASC a@25 DESC t@28.b@30 ASC c@38";

/// Conditions have trees.
const CONDITIONS: &str =
    "SELECT a FROM t WHERE a = 1 OR b = 2 AND c = 3 => {a@7 , t@14 WHERE (a@22 =@24 1 OR (b@31 =@33 2 AND c@41 =@43 3 AND ) OR )}
SELECT a FROM t WHERE (a = 1 OR b = 2) AND NOT c = 3 AND d = 4 => {a@7 , t@14 WHERE ((a@23 =@25 1 OR b@32 =@34 2 OR ) AND NOT c@47 =@49 3 AND d@57 =@59 4 AND )}
SELECT a FROM t WHERE a != 'it''s' => {a@7 , t@14 WHERE a@22 <>@24 <it's>}
SELECT a FROM t WHERE 1 <= NULL AND a IS NOT NULL => {a@7 , t@14 WHERE (1 <=@24 null AND NOT a@36 IS NULL AND )}
SELECT a FROM t WHERE a IN (SELECT b FROM u) OR -1 NOT IN (SELECT c FROM v) => {a@7 , t@14 WHERE (a@22 IN@24 {b@35 , u@42} OR NOT -1 IN@55 {c@66 , v@73} OR )}
SELECT a FROM t WHERE NOT EXISTS (SELECT * FROM u WHERE a = b GROUP BY c) => {a@7 , t@14 WHERE NOT EXISTS {*@41, u@48 WHERE a@56 =@58 b@60 BY c@71}}
SELECT a FROM t JOIN u ON a = b AND (c > 1 OR d IS NULL) => {a@7 , t@14 JOIN u@21 ON (a@26 =@28 b@30 AND (c@37 >@39 1 OR d@46 IS NULL OR ) AND )}";

/// Conditions of HAVING have trees.
const HAVING: &str =
    "SELECT a FROM t GROUP BY a HAVING COUNT(*) > 1 => {a@7 , t@14 BY a@25 HAVING count@34(*) >@43 1}
SELECT COUNT(*) FROM t HAVING MIN(b) > 400 => {count@7(*) , t@21 HAVING min@30(b@34) >@37 400}
select distinct a x from t where b = 1 group by a, t.c having t.c != 'y' order by x; => {DISTINCT a@16 AS x@18 , t@25 WHERE b@33 =@35 1 BY a@48 BY t@51.c@53 HAVING t@62.c@64 <>@66 <y>} ASC x@82
SELECT a FROM t GROUP BY a HAVING SUM(b) <= a AND NOT MAX(t.c) IS NULL OR 'x' = MIN(d) => {a@7 , t@14 BY a@25 HAVING ((sum@34(b@38) <=@41 a@44 AND NOT max@54(t@58.c@60) IS NULL AND ) OR <x> =@78 min@80(d@84) OR )}
SELECT a FROM t GROUP BY a HAVING COUNT(b) IS NOT NULL => {a@7 , t@14 BY a@25 HAVING NOT count@34(b@40) IS NULL}
SELECT a FROM t GROUP BY a HAVING (a = 1 OR 2 >= COUNT(*)) AND NOT (NULL = 3) => {a@7 , t@14 BY a@25 HAVING ((a@35 =@37 1 OR 2 >=@46 count@49(*) OR ) AND NOT null =@73 3 AND )}
SELECT a FROM t HAVING 1 = -1 => {a@7 , t@14 HAVING 1 =@25 -1}
SELECT a FROM t WHERE a IN (SELECT b FROM u GROUP BY b HAVING COUNT(*) > 1) GROUP BY a HAVING a < 2 => {a@7 , t@14 WHERE a@22 IN@24 {b@35 , u@42 BY b@53 HAVING count@62(*) >@71 1} BY a@85 HAVING a@94 <@96 2}
SELECT a FROM t WHERE EXISTS (SELECT * FROM u HAVING SUM(b) = 1) ORDER BY a => {a@7 , t@14 WHERE EXISTS {*@37, u@44 HAVING sum@53(b@57) =@60 1}} ASC a@74";

/// Each operator is the longest.
const OPERATORS: &str = "SELECT a FROM t WHERE b=1 => {a@7 , t@14 WHERE b@22 =@23 1}
SELECT a FROM t WHERE b<>1 => {a@7 , t@14 WHERE b@22 <>@23 1}
SELECT a FROM t WHERE b!=1 => {a@7 , t@14 WHERE b@22 <>@23 1}
SELECT a FROM t WHERE b<1 => {a@7 , t@14 WHERE b@22 <@23 1}
SELECT a FROM t WHERE b<=1 => {a@7 , t@14 WHERE b@22 <=@23 1}
SELECT a FROM t WHERE b>1 => {a@7 , t@14 WHERE b@22 >@23 1}
SELECT a FROM t WHERE b>=1 => {a@7 , t@14 WHERE b@22 >=@23 1}
SELECT a FROM t WHERE b<-1 => {a@7 , t@14 WHERE b@22 <@23 -1}
SELECT a FROM t WHERE b = >1 => P04 at 26";

/// Numbers have 64 bits.
const NUMBERS: &str =
    "SELECT a FROM t WHERE b = 9223372036854775807 => {a@7 , t@14 WHERE b@22 =@24 9223372036854775807}
SELECT a FROM t WHERE b = -9223372036854775808 => {a@7 , t@14 WHERE b@22 =@24 -9223372036854775808}
SELECT a FROM t WHERE b = 9223372036854775808 => P03 at 26
SELECT a FROM t WHERE b = -9223372036854775809 => P03 at 26
SELECT a FROM t WHERE b = 0000000000000000000000000007 => {a@7 , t@14 WHERE b@22 =@24 7}
SELECT a FROM t WHERE b = -0 => {a@7 , t@14 WHERE b@22 =@24 0}";

/// Texts double their quotes.
const QUOTES: &str = "SELECT a FROM t WHERE b = 'it''s' => {a@7 , t@14 WHERE b@22 =@24 <it's>}
SELECT a FROM t WHERE b = ''; => {a@7 , t@14 WHERE b@22 =@24 <>}
SELECT a FROM t WHERE b = '''' => {a@7 , t@14 WHERE b@22 =@24 <'>}
SELECT a FROM t WHERE b = 'Ä~#' => {a@7 , t@14 WHERE b@22 =@24 <Ä~#>}
SELECT a FROM t WHERE b = 'x => P02 at 26
SELECT a FROM t WHERE b = 'x'' => P02 at 26";

/// Faults of tokens go first.
const TOKENS: &str = "SELECT a FROM t WHERE b ! 1 => P01 at 24
SELECT # FROM t => P01 at 7
SELECT a FROM t WHERE b = - 1 => P01 at 26
SELECT é FROM t => P01 at 7
SELECT aé FROM t => P01 at 8
# => P01 at 0
SELECT id ! FROM emp => P01 at 10
SELECT id FROM emp WHERE (((# => P01 at 28
SELECT id FROM emp ORDER BY id \" => P01 at 31
SELECT 'a => P02 at 7
' => P02 at 0
SELECT id FROM emp WHERE id IN (SELECT id FROM emp WHERE a = 'b => P02 at 61
SELECT id FROM emp WHERE id = 9223372036854775808 => P03 at 30
-9223372036854775809 => P03 at 0
SELECT id FROM emp JOIN dept ON id = 9223372036854775808 => P03 at 37
SELECT SELECT # 9223372036854775808 => P01 at 14
FROM 'x => P02 at 5
9223372036854775808 'x # => P03 at 0
'x # 9223372036854775808 => P02 at 0";

/// Tokens out of place.
const OUT_OF_PLACE: &str = " => P04 at 0
id => P04 at 0
SELECT => P04 at 6
SELECT id FROM emp LIMIT 1 => P04 at 25
SELECT boss FROM dept RIGHT JOIN emp ON boss = pay => P04 at 22
SELECT id FROM emp;; => P04 at 19
SELECT id, FROM emp => P04 at 11
SELECT DISTINCT DISTINCT id FROM emp => P04 at 16
SELECT d.* FROM dept d => P04 at 9
SELECT 1 FROM emp => P04 at 7
SELECT SUM(*) FROM emp => P04 at 11
SELECT COUNT id FROM emp => P04 at 13
SELECT id FROM (emp) => P04 at 15
SELECT id FROM emp HAVING => P04 at 25
SELECT id FROM emp GROUP BY HAVING id = 1 => P04 at 28
SELECT id FROM emp GROUP BY id HAVING EXISTS (SELECT * FROM emp) => P04 at 38
SELECT id FROM emp GROUP BY id HAVING NOT EXISTS (SELECT * FROM emp) => P04 at 42
SELECT id FROM emp GROUP BY id HAVING id IN (SELECT id FROM emp) => P04 at 41
SELECT id FROM emp GROUP BY id HAVING id NOT IN (SELECT id FROM emp) => P04 at 41
SELECT id FROM emp GROUP BY id HAVING (MAX(pay) IN (SELECT pay FROM emp)) => P04 at 48
SELECT id FROM emp GROUP BY id HAVING COUNT(*) > (SELECT id FROM emp) => P04 at 49
SELECT id FROM emp GROUP BY id HAVING COUNT(*) => P04 at 46
SELECT id FROM emp GROUP BY id HAVING (COUNT(*)) > 1 => P04 at 47
SELECT id FROM emp GROUP BY id HAVING SUM(*) > 1 => P04 at 42
SELECT id FROM emp GROUP BY id HAVING COUNT > 1 => P04 at 44
SELECT id FROM emp GROUP BY id HAVING NOT NOT id = 1 => P04 at 42
SELECT id FROM emp GROUP BY id HAVING id = 1 HAVING id = 2 => P04 at 45
SELECT id FROM emp HAVING id = 1 GROUP BY id => P04 at 33
SELECT id FROM emp HAVING id = 1 WHERE id = 1 => P04 at 33
SELECT id FROM emp ORDER BY id HAVING id = 1 => P04 at 31
SELECT id FROM emp JOIN dept HAVING id = 1 => P04 at 29
SELECT having FROM emp => P04 at 7
SELECT id FROM emp WHERE COUNT(*) > 1 => P04 at 25
SELECT id FROM emp JOIN dept ON MAX(id) = 1 => P04 at 32
SELECT id FROM emp JOIN dept => P04 at 28
SELECT id FROM emp JOIN dept ON EXISTS (SELECT * FROM emp) => P04 at 32
SELECT id FROM emp JOIN dept ON id IN (SELECT id FROM emp) => P04 at 35
SELECT id FROM emp JOIN dept ON (id = 1 OR id NOT IN => P04 at 46
SELECT id FROM emp LEFT INNER JOIN dept ON id = 1 => P04 at 24
SELECT id FROM emp WHERE => P04 at 24
SELECT id FROM emp WHERE NOT NOT id = 1 => P04 at 29
SELECT id FROM emp WHERE id => P04 at 27
SELECT id FROM emp WHERE (id) = 1 => P04 at 28
SELECT id FROM emp WHERE id = (SELECT id FROM emp) => P04 at 30
SELECT id FROM emp WHERE id IN (1, 2) => P04 at 32
SELECT id FROM emp WHERE id IN (SELECT id FROM emp ORDER BY id) => P04 at 51
SELECT id FROM emp WHERE id IN (SELECT id FROM emp;) => P04 at 50
SELECT id FROM emp WHERE EXISTS (SELECT * FROM emp WHERE) => P04 at 56
SELECT id FROM emp WHERE id = 1) => P04 at 31
SELECT id FROM emp GROUP id => P04 at 25
SELECT id FROM emp GROUP BY id ASC => P04 at 31
SELECT id FROM emp ORDER BY 1 => P04 at 28
SELECT id FROM emp ORDER BY id, => P04 at 31
SELECT id FROM emp ORDER BY id GROUP BY id => P04 at 31
 \t => P04 at 2
SELECT id FROM emp GROUP BY id, SELECT => P04 at 32
SELECT 1a FROM t => P04 at 7
SELECT Select FROM t => P04 at 7
SELECT a FROM order => P04 at 14
SELECT a FROM t WHERE => P04 at 21
SELECT a FROM t WHERE b = 1 AND => P04 at 31
SELECT a FROM t WHERE sum = 1 => P04 at 22
SELECT a FROM t;; => P04 at 16";

/// Parentheses have a limit.
const PARENTHESES: &str =
    "SELECT id FROM emp WHERE |64*(|id = 1|64*) => {id@7 , emp@15 WHERE id@89 =@92 1}
SELECT id FROM emp WHERE |64*(|id = 1|64*)|2* AND (id = 2) => {id@7 , emp@15 WHERE (id@89 =@92 1 AND id@165 =@168 2 AND id@178 =@181 2 AND )}
SELECT id FROM emp WHERE |65*(|id = 1|65*) => P05 at 89
SELECT id FROM emp WHERE = |65*( => P04 at 25
SELECT id FROM emp WHERE |64*(|id = ( => P04 at 94
SELECT id FROM emp WHERE |63*(|EXISTS (SELECT COUNT( => P05 at 108
SELECT id FROM emp JOIN dept ON |65*( => P05 at 96
SELECT id FROM emp GROUP BY id HAVING |64*(|id = 1|64*) => {id@7 , emp@15 BY id@28 HAVING id@102 =@105 1}
SELECT id FROM emp GROUP BY id HAVING |63*(|COUNT(id) = 1|63*) => {id@7 , emp@15 BY id@28 HAVING count@101(id@107) =@111 1}
SELECT id FROM emp GROUP BY id HAVING |65*(|id = 1|65*) => P05 at 102
SELECT id FROM emp GROUP BY id HAVING |64*(|COUNT( => P05 at 107
SELECT id FROM emp GROUP BY id HAVING |64*(|id = ( => P04 at 107";

/// Texts have a limit.
const LIMIT: &str = "SELECT a FROM t|65521*  => {a@7 , t@14}
SELECT a FROM t|65521* |# => P06 at 65536
SELECT a FROM t WHERE a = b|7278* OR a = b|7* |# => P06 at 65536";

/// Bytes that are no text, the last a character that is cut off.
const NO_TEXT: &str = "SELECT ^ FROM t => P01 at 7
# ` => P01 at 2";

#[test]
fn texts_have_trees_or_faults(rt: HostRuntime) {
    let tables = [
        STATEMENTS,
        CONDITIONS,
        HAVING,
        OPERATORS,
        NUMBERS,
        QUOTES,
        TOKENS,
        OUT_OF_PLACE,
        PARENTHESES,
        LIMIT,
        NO_TEXT,
    ];
    let (bytes, text) = (Handed::Bytes, Handed::Text);
    assert_eq!(rt;
        differences(rt.alloc(), &tables, &Trees { handed: bytes }).as_deref(),
        Ok("")
    );
    assert_eq!(rt;
        differences(rt.alloc(), &tables, &Trees { handed: text }).as_deref(),
        Ok("")
    );
}
