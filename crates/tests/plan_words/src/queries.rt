//! Queries over the tables of `examples/hr`, with their answers. Each line has a text, `=>`, and the lines that it is answered with,
//! with `;` between them. The answers are sqlite3's: `tests/run answers` reads this file and asks it.

/// Queries of one table. A comparison with NULL is unknown, and so is its opposite.
const ONE_TABLE: &str = r"SELECT id FROM emp WHERE pay != 500; => id;12
SELECT id FROM emp WHERE pay = 500 => id;10;13
SELECT id FROM emp WHERE pay < 500 => id;12
SELECT id FROM emp WHERE pay <= 500 => id;10;12;13
SELECT id FROM emp WHERE pay > 400 => id;10;13
SELECT id FROM emp WHERE pay >= 401 => id;10;13
SELECT id FROM emp WHERE pay = NULL => id
SELECT id FROM emp WHERE pay <> NULL => id
SELECT pay, id, pay FROM emp WHERE id < 12 => pay,id,pay;500,10,500;\N,11,\N
SELECT name FROM dept WHERE name = 'it''s' => name
SELECT boss FROM dept => boss;10;\N;12
SELECT id FROM emp WHERE id >= -9223372036854775808 => id;10;11;12;13";

/// The first queries, of each form.
const WORKED: &str = r"SELECT id FROM emp WHERE pay <> 500 => id;12
SELECT id FROM emp WHERE pay != 500 => id;12
SELECT d.id FROM dept d WHERE d.id NOT IN (SELECT e.dept FROM emp e) => id
SELECT d.id FROM dept d WHERE d.id NOT IN (SELECT e.dept FROM emp e WHERE e.dept IS NOT NULL) => id;2
SELECT d.id FROM dept d WHERE NOT EXISTS (SELECT * FROM emp e WHERE e.dept = d.id) => id;2
SELECT d.boss FROM dept d WHERE d.boss NOT IN (SELECT e.id FROM emp e WHERE e.pay > 1000) => boss;10;\N;12
SELECT DISTINCT badge FROM emp => badge;7;\N;9
SELECT d.id, e.id FROM dept d LEFT JOIN emp e ON e.dept = d.id => id,id;1,10;1,11;2,\N;3,12
SELECT d.id, e.id FROM dept d LEFT JOIN emp e ON e.dept = d.id WHERE e.pay > 0 => id,id;1,10;3,12
SELECT d.id, e.id FROM dept d LEFT JOIN emp e ON e.dept = d.id WHERE e.pay IS NULL => id,id;1,11;2,\N
SELECT d.id FROM dept d LEFT JOIN emp e ON e.dept = d.id WHERE e.id IS NULL => id;2
SELECT COUNT(*), COUNT(pay), SUM(pay), MIN(pay) FROM emp => count,count,sum,min;4,3,1400,400
SELECT COUNT(*), COUNT(pay), SUM(pay), MIN(pay) FROM emp WHERE id < 0 => count,count,sum,min;0,0,\N,\N
SELECT dept, SUM(pay) FROM emp GROUP BY dept ORDER BY dept DESC => dept,sum;3,400;1,500;\N,500
SELECT id FROM emp WHERE NOT (pay = pay) => id
SELECT pay, id FROM emp ORDER BY pay => pay,id;\N,11;400,12;500,10;500,13
SELECT DISTINCT pay FROM emp WHERE badge IS NULL OR badge IN (SELECT d.boss FROM dept d) => pay;\N;400
SELECT id FROM emp WHERE ((((((((((((((((((((((((((((((((((((((((((((((((((((((((((((((((id = 1)))))))))))))))))))))))))))))))))))))))))))))))))))))))))))))))) => id";

/// Unknown is neither true nor false.
const UNKNOWN: &str = r"SELECT id FROM emp WHERE pay = 500 AND badge > 7 => id;13
SELECT id FROM emp WHERE pay = 500 OR badge > 7 => id;10;13
SELECT id FROM emp WHERE NOT (pay = 500 AND badge = 7) => id;12;13
SELECT id FROM emp WHERE NOT (pay = 500 OR badge = 7) => id
SELECT id FROM emp WHERE pay IS NULL OR NOT pay > 400 AND dept = 3 => id;11;12
SELECT id FROM emp WHERE (pay IS NULL OR NOT pay > 400) AND dept = 3 => id;12
SELECT id FROM emp WHERE NULL = NULL => id
SELECT id FROM emp WHERE NULL IS NULL AND NOT 7 IS NULL => id;10;11;12;13
SELECT id FROM emp WHERE pay = NULL OR id = 11 => id;11
SELECT id FROM emp WHERE NOT (NOT badge <> 7) => id;13
SELECT id FROM emp WHERE 400 < pay => id;10;13
SELECT name FROM dept WHERE name < 'ops' AND name >= 'dev' => name;lab;dev";

/// Membership among Nulls is unknown.
const MEMBERSHIP: &str = r"SELECT id FROM emp WHERE badge IN (SELECT boss FROM dept) => id
SELECT id FROM emp WHERE dept IN (SELECT id FROM dept) => id;10;11;12
SELECT id FROM emp WHERE dept NOT IN (SELECT id FROM dept WHERE id <> 3) => id;12
SELECT id FROM emp WHERE id IN (SELECT boss FROM dept) => id;10;12
SELECT id FROM emp WHERE id NOT IN (SELECT boss FROM dept) => id
SELECT id FROM emp WHERE id NOT IN (SELECT boss FROM dept WHERE boss > 10) => id;10;11;13
SELECT id FROM emp WHERE NULL IN (SELECT boss FROM dept) => id
SELECT id FROM emp WHERE NULL NOT IN (SELECT boss FROM dept WHERE id > 3) => id;10;11;12;13
SELECT id FROM emp WHERE badge NOT IN (SELECT id FROM dept WHERE id > 3) => id;10;11;12;13
SELECT id FROM emp WHERE NOT dept IN (SELECT id FROM dept WHERE boss IS NULL) => id;10;11;12
SELECT id FROM emp WHERE 12 IN (SELECT boss FROM dept) AND 13 IN (SELECT boss FROM dept) => id
SELECT id FROM emp WHERE 12 NOT IN (SELECT boss FROM dept) OR 1 IN (SELECT id FROM dept) => id;10;11;12;13
SELECT name FROM dept WHERE name IN (SELECT MAX(name) FROM dept) => name;ops
SELECT id FROM emp WHERE pay IN (SELECT MAX(pay) FROM emp e WHERE e.dept = 1) => id;10;13
SELECT id FROM emp WHERE 4 IN (SELECT COUNT(*) FROM emp) => id;10;11;12;13";

/// Subqueries that reach outwards.
const SUBQUERIES: &str =
    r"SELECT d.name FROM dept d WHERE EXISTS (SELECT id FROM emp e WHERE e.dept = d.id AND e.pay IS NULL) => name;ops
SELECT d.name FROM dept d WHERE EXISTS (SELECT * FROM emp e WHERE e.dept = d.id AND EXISTS (SELECT * FROM emp f WHERE f.pay = e.pay AND f.id <> e.id)) => name;ops
SELECT d.name FROM dept d WHERE EXISTS (SELECT * FROM emp e WHERE e.dept = d.id AND e.id IN (SELECT f.id FROM emp f WHERE f.id = d.boss)) => name;ops;dev
SELECT d.name FROM dept d WHERE NOT EXISTS (SELECT * FROM emp e WHERE e.dept = d.id AND NOT EXISTS (SELECT * FROM emp f WHERE f.dept = d.id AND f.pay > 400)) => name;ops;lab
SELECT d.name FROM dept d WHERE EXISTS (SELECT * FROM emp e WHERE e.pay > 400 AND e.dept = d.id OR e.badge IS NULL AND e.id = d.boss) => name;ops;dev
SELECT d.name FROM dept d WHERE NOT EXISTS (SELECT * FROM emp e WHERE e.pay > 400 AND e.dept = d.id OR e.badge IS NULL AND e.id = d.boss) => name;lab
SELECT d.name FROM dept d WHERE EXISTS (SELECT * FROM emp e WHERE e.badge > 7 AND d.boss IS NULL OR e.id = d.boss AND d.id = 1) => name;ops;lab
SELECT e.id FROM emp e WHERE e.badge NOT IN (SELECT d.boss FROM dept d WHERE d.id > 1 AND e.pay > 400 OR d.boss = 10 AND e.dept = 1) => id;12
SELECT id FROM emp WHERE dept IN (SELECT id FROM dept WHERE boss IN (SELECT id FROM emp WHERE pay = 500)) => id;10;11
SELECT e.id FROM emp e WHERE EXISTS (SELECT * FROM dept d WHERE d.id = e.dept AND EXISTS (SELECT * FROM emp f WHERE f.dept = d.id AND f.id NOT IN (SELECT g.id FROM emp g WHERE g.id <= e.id))) => id;10
SELECT id FROM emp e WHERE e.pay IN (SELECT pay FROM emp WHERE id <> e.id) => id;10;13
SELECT id FROM emp WHERE EXISTS (SELECT * FROM dept WHERE dept = dept.id) => id;10;11;12
SELECT id FROM dept WHERE id IN (SELECT dept FROM emp WHERE boss = emp.id) => id;1;3
SELECT id FROM dept d WHERE EXISTS (SELECT COUNT(*) FROM emp e WHERE e.dept = d.id) => id;1;2;3
SELECT id FROM dept d WHERE 2 IN (SELECT COUNT(*) FROM emp e WHERE e.dept = d.id) => id;1
SELECT id FROM dept d WHERE EXISTS (SELECT e.dept, COUNT(*) FROM emp e WHERE e.dept = d.id GROUP BY e.dept) => id;1;3";

/// Joins pad what has no match.
const JOINS: &str =
    r"SELECT d.id, e.id FROM dept d JOIN emp e ON e.dept = d.id => id,id;1,10;1,11;3,12
SELECT d.id, e.id FROM dept d INNER JOIN emp e ON e.id = d.boss => id,id;1,10;3,12
SELECT d.id, e.id FROM dept d, emp e WHERE d.id = 1 AND e.pay = 500 => id,id;1,10;1,13
SELECT d.id, e.id FROM dept d LEFT JOIN emp e ON 1 = 2 => id,id;1,\N;2,\N;3,\N
SELECT d.id, e.id FROM dept d LEFT OUTER JOIN emp e ON 1 = 1 WHERE d.id = 2 => id,id;2,10;2,11;2,12;2,13
SELECT d.id, e.id FROM dept d LEFT JOIN emp e ON NULL = 1 => id,id;1,\N;2,\N;3,\N
SELECT d.id, e.id FROM dept d LEFT JOIN emp e ON e.badge > 7 OR e.badge IS NULL AND d.boss = e.id => id,id;1,13;2,13;3,12;3,13
SELECT d.id, e.id FROM dept d LEFT JOIN emp e ON d.boss IS NULL => id,id;1,\N;2,10;2,11;2,12;2,13;3,\N
SELECT e.id, d.id, f.id FROM emp e LEFT JOIN dept d ON d.id = e.dept LEFT JOIN emp f ON f.id = d.boss => id,id,id;10,1,10;11,1,10;12,3,12;13,\N,\N
SELECT e.id, d.id, f.id FROM emp e LEFT JOIN dept d ON d.id = e.dept JOIN emp f ON f.id = d.boss => id,id,id;10,1,10;11,1,10;12,3,12
SELECT a.id, b.id FROM dept a JOIN dept b ON a.id < b.id, emp e LEFT JOIN emp f ON f.dept = e.id WHERE e.id = 13 => id,id;1,2;1,3;2,3
SELECT COUNT(*) FROM emp a, emp b, emp c, emp d => count;256
SELECT * FROM dept d LEFT JOIN emp e ON e.dept = d.id AND e.pay > 400 => id,name,boss,id,dept,pay,badge;1,ops,10,10,1,500,7;2,lab,\N,\N,\N,\N,\N;3,dev,12,\N,\N,\N,\N
SELECT d.name FROM dept d LEFT JOIN emp e ON e.dept = d.id WHERE NOT EXISTS (SELECT * FROM emp f WHERE f.id = e.id) => name;lab";

/// Groups take Nulls as the same.
const GROUPS: &str = r"SELECT dept, COUNT(*) FROM emp GROUP BY dept => dept,count;1,2;3,1;\N,1
SELECT pay, COUNT(*), COUNT(badge), SUM(badge) FROM emp GROUP BY pay => pay,count,count,sum;500,2,2,16;\N,1,0,\N;400,1,0,\N
SELECT COUNT(*) FROM emp GROUP BY badge => count;1;2;1
SELECT COUNT(*), MIN(pay), MAX(pay), SUM(pay) FROM emp WHERE pay IS NULL => count,min,max,sum;1,\N,\N,\N
SELECT COUNT(*), MIN(pay) FROM emp WHERE id < 0 => count,min;0,\N
SELECT dept, COUNT(*), MIN(pay) FROM emp WHERE id < 0 GROUP BY dept => dept,count,min
SELECT dept, pay, MAX(id) FROM emp GROUP BY pay, dept => dept,pay,max;1,500,10;1,\N,11;3,400,12;\N,500,13
SELECT DISTINCT COUNT(*) FROM emp GROUP BY dept => count;2;1
SELECT DISTINCT MIN(pay), MAX(pay) FROM emp GROUP BY id => min,max;500,500;\N,\N;400,400
SELECT MIN(name), MAX(name), COUNT(name) FROM dept => min,max,count;dev,ops,3
SELECT d.name, COUNT(e.id) AS heads, SUM(e.pay) total FROM dept d LEFT JOIN emp e ON e.dept = d.id GROUP BY d.id, d.name => name,heads,total;ops,2,500;lab,0,\N;dev,1,400
SELECT dept FROM emp GROUP BY dept => dept;1;3;\N
SELECT d.id FROM dept d WHERE d.id IN (SELECT MIN(e.dept) FROM emp e GROUP BY e.pay) => id;1;3
SELECT SUM(id), SUM(id) AS again, COUNT(*) FROM emp WHERE dept IN (SELECT id FROM dept) => sum,again,count;33,33,3";

/// Groups stay where their HAVING is true. Without GROUP BY it may leave none.
const HAVING: &str =
    r"SELECT dept, COUNT(*) FROM emp GROUP BY dept HAVING COUNT(*) > 1 => dept,count;1,2
SELECT dept FROM emp GROUP BY dept HAVING SUM(pay) >= 500 => dept;1;\N
SELECT dept FROM emp GROUP BY dept HAVING dept > 1 => dept;3
SELECT COUNT(*) FROM emp HAVING MIN(pay) > 400 => count
SELECT COUNT(*) FROM emp HAVING MIN(pay) > 300 => count;4
SELECT COUNT(*) FROM emp HAVING 1 = 2 => count
SELECT COUNT(*) FROM emp WHERE id < 0 HAVING COUNT(*) = 0 => count;0
SELECT COUNT(*) FROM emp WHERE id < 0 HAVING SUM(pay) <> 0 => count
SELECT dept FROM emp GROUP BY dept HAVING MIN(badge) IS NULL => dept;3
SELECT dept FROM emp GROUP BY dept HAVING NOT MIN(badge) = 7 => dept;\N
SELECT dept FROM emp GROUP BY dept HAVING dept = NULL => dept
SELECT dept FROM emp GROUP BY dept HAVING dept IS NULL OR COUNT(pay) < COUNT(*) => dept;1;\N
SELECT dept FROM emp GROUP BY dept HAVING NOT (dept = 1 AND COUNT(*) = 2) => dept;3;\N
SELECT dept, pay FROM emp GROUP BY dept, pay HAVING (dept = 1 OR dept IS NULL) AND pay IS NOT NULL => dept,pay;1,500;\N,500
SELECT DISTINCT COUNT(*) FROM emp GROUP BY dept HAVING MIN(pay) IS NOT NULL => count;2;1
SELECT id FROM emp WHERE dept IN (SELECT dept FROM emp GROUP BY dept HAVING COUNT(*) > 1) => id;10;11
SELECT name FROM dept WHERE id NOT IN (SELECT dept FROM emp GROUP BY dept HAVING COUNT(*) < 2) => name
SELECT name FROM dept d WHERE NOT EXISTS (SELECT COUNT(*) FROM emp e WHERE e.dept = d.id HAVING COUNT(*) > 1) => name;lab;dev
SELECT d.name FROM dept d LEFT JOIN emp e ON e.dept = d.id GROUP BY d.id, d.name HAVING COUNT(e.id) = 0 => name;lab
SELECT MAX(name) FROM dept HAVING MAX(name) > 'ops' => max
SELECT dept, SUM(pay) AS total FROM emp GROUP BY dept HAVING COUNT(pay) > 0 ORDER BY total, dept => dept,total;3,400;\N,500;1,500";

/// DISTINCT leaves one of each.
const DISTINCT: &str = r"SELECT DISTINCT pay FROM emp => pay;500;\N;400
SELECT DISTINCT dept, pay FROM emp WHERE pay = 500 OR pay IS NULL => dept,pay;1,500;1,\N;\N,500
SELECT DISTINCT d.boss FROM dept d, emp e ORDER BY d.boss => boss;\N;10;12
SELECT pay FROM emp => pay;500;\N;400;500
SELECT DISTINCT * FROM dept => id,name,boss;1,ops,10;2,lab,\N;3,dev,12";

/// Nulls come first.
const ORDERS: &str =
    r"SELECT id, pay FROM emp ORDER BY pay DESC, id DESC => id,pay;13,500;10,500;12,400;11,\N
SELECT id, pay FROM emp ORDER BY pay, id DESC => id,pay;11,\N;12,400;13,500;10,500
SELECT id, badge FROM emp ORDER BY badge ASC, id => id,badge;11,\N;12,\N;10,7;13,9
SELECT id, badge FROM emp ORDER BY badge DESC, id => id,badge;13,9;10,7;11,\N;12,\N
SELECT name FROM dept ORDER BY name => name;dev;lab;ops
SELECT name FROM dept ORDER BY name DESC; => name;ops;lab;dev
SELECT dept, COUNT(*) AS n FROM emp GROUP BY dept ORDER BY n DESC, dept => dept,n;1,2;\N,1;3,1
SELECT DISTINCT pay FROM emp ORDER BY pay DESC => pay;500;400;\N
SELECT d.id AS dept, e.id AS emp FROM dept d LEFT JOIN emp e ON e.dept = d.id ORDER BY d.id DESC, e.id DESC => dept,emp;3,12;2,\N;1,11;1,10
SELECT pay AS p, pay AS q, id FROM emp ORDER BY p, q DESC, id => p,q,id;\N,\N,11;400,400,12;500,500,10;500,500,13";

/// The lists whose texts are queries.
pub const QUERIES: [&str; 10] = [
    ONE_TABLE, WORKED, UNKNOWN, MEMBERSHIP, SUBQUERIES, JOINS, GROUPS, HAVING, DISTINCT, ORDERS,
];
